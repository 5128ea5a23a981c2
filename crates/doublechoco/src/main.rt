// The page program: a page on standard input, its answers on standard output. It reads the whole page, and then writes
// chunk after chunk as crate transcript puts them.
//
// What the chunks are together is proved in crate transcript (specs/PageTheorem, `printed`). Here it is proved that the
// program is safe, keeps to fixed memory, has room for one byte more than a page has and for 1,984 literals, and ends.
// To be read, and tested: that `answer` begins with `first()`, calls `next` on what the last call left, and writes each
// chunk once. Assumed, since nothing proves C: that `read` and `write` do what POSIX says of them, each returns, and
// their counts lie within the buffer; that `write_all` of std writes each byte once and in order is tested by the kit,
// and is not part of its contract at the standard output.
#![tactic(auto)]

ghost use Rattle.std.specs.Prelude.{◌≡◌, ◌<◌, ◌≤◌, length, OnErr};
ghost use Rattle.std.specs.Io.{ReadsAtMost};

use std::io;
use std::io::{Read, Write};

// Reads until the input ends or `page` is full: how many bytes. A page has at most 65,536 bytes: `page` has room for
// one more, by which a longer input is known. Where reading fails, no other error comes, and `page` keeps its length.
fn read_page<R: Read>(input: &mut R, page: &mut [u8]) -> io::Result<usize>
    requires { 65536 < length page.old }
    ensures ok { ReadsAtMost result page.new }
    ensures err { OnErr result (length page.new ≡ length page.old) }
{
    let mut n = 0;
    while n < page.len() {
        let more = input.read(&mut page[n..])?;
        if more == 0 {
            return Ok(n);
        }
        n += more;
    }
    Ok(n)
}

// Writes the answers of the page s, up to where a write fails. The memory is as long as `printed` asks.
fn answer<W: Write>(s: &[u8], memory: &mut [u16], out: &mut [u8], output: &mut W) -> io::Result<()>
    requires { (32 ≤ length out.old) × (length memory.old ≡ 1984) }
{
    let mut run = transcript::first();
    while transcript::goes_on(run) {
        run = transcript::next(s, run, memory, out);
        output.write_all(&out[..run.count])?;
    }
    Ok(())
}

fn main(rt: HostRuntime) -> io::Result<()> {
    let mut page = [0u8; 65537];
    let n = read_page(&mut rt.stdin(), &mut page)?;
    let mut memory = [0u16; 1984];
    let mut out = [0u8; 4096];
    answer(&page[..n], &mut memory, &mut out, &mut rt.stdout())
}
