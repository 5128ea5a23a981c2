// Answers as bytes: the lines of the page program's output, and the literals of a reason, as many at a time as a lent
// buffer takes.
#![tactic(auto)]

ghost use Rattle.std.specs.Prelude.{◌≡◌, cond, [], ◌∷◌, ◌++◌, ◌+◌, ◌%◌, ◌<◌, ◌≤◌, eqb, length};
ghost use Rattle.rules.specs.Check.{pass};
ghost use Rattle.rules.specs.Book.{refused, answered};
ghost use Rattle.page.specs.Decimal.{decimal};
ghost use Rattle.page.specs.Grammar.{bracket, newline, end_word};
ghost use Rattle.page.specs.PageText.{counted};
ghost use Rattle.print.specs.Answers.{answers_word, conflict_word, show_reply, code_text, text_of};
ghost use Rattle.print.specs.Lines.{start, Longer, LineHolds, Written};
ghost use Rattle.print.specs.Chunks.{Put};

// The bytes of a line, or of a part of one, and how many they are: there is no heap.
#[derive(Clone, Copy)]
pub struct Line {
    pub bytes: [u8; 32],
    pub count: usize,
}

impl Line {
    // The line of no bytes.
    pub fn empty() -> Line
        ensures { result ≡ start }
    {
        Line {
            bytes: [0; 32],
            count: 0,
        }
    }

    // The line with one byte more.
    fn with_byte(mut self, b: u8) -> Line
        requires { self.count < 32 }
        ensures { Longer self (b ∷ []) result }
    {
        self.bytes[self.count] = b;
        self.count += 1;
        self
    }

    // The line with a word more.
    fn with_word(mut self, word: &[u8]) -> Line
        requires { self.count + length word.now ≤ 32 }
        ensures { Longer self word.now result }
    {
        let at = self.count;
        let end = at + word.len();
        self.bytes[at..end].copy_from_slice(word);
        self.count = end;
        self
    }

    // The line with a number more, in decimal.
    fn with_number(self, n: usize) -> Line
        requires { self.count + length (decimal n) ≤ 32 }
        ensures { Longer self (decimal n) result }
    {
        if n < 10 {
            return self.with_byte(b'0' + n as u8);
        }
        self.with_number(n / 10).with_byte(b'0' + (n % 10) as u8)
    }
}

// The word, the number, a bracket and a newline.
fn numbered(word: &[u8], n: usize) -> Line
    requires { length word.now ≤ 9 }
    ensures { LineHolds result (word.now ++ (counted n bracket ++ newline)) }
{
    Line::empty()
        .with_word(word)
        .with_number(n)
        .with_word(b")\n")
}

// `(pass n)` and its newline.
pub fn pass_line(n: usize) -> Line
    ensures { LineHolds result (show_reply (answered (pass n))) }
{
    numbered(b"(pass ", n)
}

// `(refused n)` and its newline.
pub fn refused_line(n: usize) -> Line
    ensures { LineHolds result (show_reply (refused n)) }
{
    numbered(b"(refused ", n)
}

// A line that holds a word.
fn word_line(word: &[u8]) -> Line
    requires { length word.now ≤ 32 }
    ensures { LineHolds result word.now }
{
    Line::empty().with_word(word)
}

// `(answers` and its newline: the output's first line.
pub fn answers_line() -> Line
    ensures { LineHolds result answers_word }
{
    word_line(b"(answers\n")
}

// `(conflict`: what stands before the literals.
pub fn conflict_start() -> Line
    ensures { LineHolds result conflict_word }
{
    word_line(b"(conflict")
}

// `)` and its newline: what stands after the literals, and the output's last line.
pub fn end_line() -> Line
    ensures { LineHolds result end_word }
{
    word_line(b")\n")
}

// The letter of the side of the literal that reason memory holds as `code`: w for wall, o for open.
fn side_letter(code: usize) -> u8
    ensures { result ≡ cond (eqb (code % 2) 1) 119 111 }
{
    if code % 2 == 1 { b'w' } else { b'o' }
}

// A space and the literal that reason memory holds as `code`.
pub fn literal_text(code: u16) -> Line
    ensures { LineHolds result (code_text code) }
{
    let k = usize::from(code);
    Line::empty()
        .with_byte(b' ')
        .with_number(k / 2)
        .with_byte(side_letter(k))
}

// The line's bytes, written into `out` from `at` on: the place after them. No other byte changes.
pub fn put_line(out: &mut [u8], at: usize, line: Line) -> usize
    requires { (line.count ≤ 32) × (at + 32 ≤ length out.old) }
    ensures { Written out.old at (text_of line) out.new result }
{
    let n = line.count;
    out[at..at + n].copy_from_slice(&line.bytes[..n]);
    at + n
}

// Which literal is the next, and how many bytes were written.
#[derive(Clone, Copy)]
pub struct Chunk {
    pub next: usize,
    pub count: usize,
}

// Writes the literals of `codes` from `from` up to `to` into `out`, as many as surely fit. No byte beyond
// them changes.
pub fn put_literals(out: &mut [u8], codes: &[u16], from: usize, to: usize) -> Chunk
    ensures { Put codes.now from to out.old out.new result }
{
    let end = to.min(codes.len());
    let mut chunk = Chunk {
        next: from,
        count: 0,
    };
    for next in from..end {
        if out.len() - chunk.count < 32 {
            return chunk;
        }
        let count = put_line(out, chunk.count, literal_text(codes[next]));
        chunk = Chunk {
            next: next + 1,
            count,
        };
    }
    chunk
}
