// The calls for tests for C: each export is the function of crate probe with its name and its clauses.
#![tactic(auto)]

ghost use Rattle.groups.specs.Grouping.{array_of};
ghost use Rattle.probe.specs.Probe.{kind_groups, ProbeAnswered, reason_words, path_words, board_from, kind_of};
ghost use Rattle.image.specs.Image.{side_of};
ghost use Rattle.std.specs.Prelude.{◌≡◌, length};
ghost use Rattle.probe.specs.ProbeChecks.{checked_number, checked_memory, checks_number, checks_memory};
ghost use Rattle.probe.specs.ProbeAsked.{asked_in, told_words, AskedTold, which_of, part_in};
ghost use Rattle.calls.specs.Answers.{literal_of};
ghost use Rattle.probe.specs.ProbePreviews.{previews_number, previews_memory};
ghost use Rattle.probe.specs.ProbeRecords.{call_with, record_number, record_words, record_memory};
ghost use Rattle.std.proofs.lemmas.List.Edits.{sets};
ghost use Rattle.probe.specs.ProbeTransform.{counts_of, answer_in, memory_in};

// The groups of one kind, as they stand in a grouping: the cells' numbers (1,024 places), the cells group by group
// (1,024), where each group starts (1,025), and the count.
#[unsafe(no_mangle)]
pub extern "C" fn probe_groups(
    h: usize,
    w: usize,
    colours: &[u8],
    borders: &[u8],
    kind: u32,
    memory: &mut [u16],
) -> usize
    ensures { ProbeAnswered h w memory.old
        (array_of (kind_groups h w colours.now borders.now kind)) memory.new result }
{
    probe::probe_groups(h, w, colours, borders, kind, memory)
}

// Inside (side 0) or Edge (any other side) of a group of one kind; no literals if no group has the number.
#[unsafe(no_mangle)]
pub extern "C" fn probe_reason(
    h: usize,
    w: usize,
    colours: &[u8],
    borders: &[u8],
    kind: u32,
    side: u32,
    group: usize,
    memory: &mut [u16],
) -> usize
    ensures { ProbeAnswered h w memory.old
        (reason_words h w colours.now borders.now
        kind (side_of side) group) memory.new result }
{
    probe::probe_reason(h, w, colours, borders, kind, side, group, memory)
}

// Path from cell a to cell b.
#[unsafe(no_mangle)]
pub extern "C" fn probe_path(
    h: usize,
    w: usize,
    borders: &[u8],
    a: usize,
    b: usize,
    memory: &mut [u16],
) -> usize
    ensures { ProbeAnswered h w memory.old (path_words h w borders.now a b)
        memory.new result }
{
    probe::probe_path(h, w, borders, a, b, memory)
}

// Makes the board of a puzzle, decides the literals, with so many checks after each, and then checks so many times. The
// number of the last answer; 0 without a check at the end; the refusal's number if no board is made.
#[unsafe(no_mangle)]
pub extern "C" fn probe_checks(
    h: usize,
    w: usize,
    colours: &[u8],
    clues: &[i32],
    codes: &[u16],
    each: usize,
    times: usize,
    memory: &mut [u16],
) -> usize
    ensures { (result ≡ checked_number h w colours.now clues.now codes.now times
        (length memory.old))
        × (memory.new ≡ checked_memory h w colours.now clues.now codes.now each
        times memory.old) }
{
    probe::checks::probe_checks(h, w, colours, clues, codes, each, times, memory)
}

// So many checks of the board that the image s spells: the number of the last answer, 0 if there was none.
#[unsafe(no_mangle)]
pub extern "C" fn probe_board_checks(s: &[u8], times: usize, memory: &mut [u16]) -> usize
    ensures { (result ≡ checks_number (board_from s.now) (length memory.old) times)
        × (memory.new ≡ checks_memory (board_from s.now) times memory.old) }
{
    probe::checks::probe_board_checks(s, times, memory)
}

// The groups of one kind, as `probe_groups` writes them; of an alien image the refusal's number, and the memory stays.
#[unsafe(no_mangle)]
pub extern "C" fn probe_asked(s: &[u8], kind: u32, memory: &mut [u16]) -> usize
    ensures { AskedTold (told_words (asked_in s.now (kind_of kind))) memory.old memory.new result }
{
    probe::asked::probe_asked(s, kind, memory)
}

// The cells of group g, as the part of the chosen list. There are none where no group has the number, and so of an
// alien image.
#[unsafe(no_mangle)]
pub extern "C" fn probe_part(s: &[u8], which: u32, g: usize, memory: &mut [u16]) -> usize
    ensures { AskedTold (Ok (part_in s.now (which_of which) g)) memory.old memory.new result }
{
    probe::asked::probe_part(s, which, g, memory)
}

// So many previews of the literal with this code on the board that the image s spells: the number of the last answer, 0
// if there was none.
#[unsafe(no_mangle)]
pub extern "C" fn probe_previews(s: &[u8], code: usize, times: usize, memory: &mut [u16]) -> usize
    ensures { (result ≡ previews_number (board_from s.now) (literal_of code) (length memory.old) times)
        × (memory.new ≡ previews_memory (board_from s.now) (literal_of code) times
        memory.old) }
{
    probe::previews::probe_previews(s, code, times, memory)
}

// Makes the call on the board that the image s spells, with the record of these words: undecided, walls, opens. The
// number of the answer; the words are the record afterwards. Words that are not three are a record that disagrees.
#[unsafe(no_mangle)]
pub extern "C" fn probe_counted(
    s: &[u8],
    which: usize,
    code: usize,
    words: &mut [usize],
    memory: &mut [u16],
) -> usize
    ensures { (result ≡ record_number (board_from s.now) (call_with which (literal_of code)) words.old
        memory.old)
        × (words.new ≡ record_words (board_from s.now) (call_with which (literal_of code))
        words.old memory.old)
        × (memory.new ≡ record_memory (board_from s.now) (call_with which (literal_of code))
        words.old memory.old) }
{
    probe::records::probe_counted(s, which, code, words, memory)
}

// Transform `k` of unit `u` of the board that the image s spells; an image of another length is alien.
#[unsafe(no_mangle)]
pub extern "C" fn probe_transform(
    s: &[u8],
    u: usize,
    k: usize,
    counts: &mut [usize],
    memory: &mut [i32],
)
    ensures { (counts.new ≡ sets counts.old 0
        (counts_of (answer_in s.now u k (length memory.old))))
        × (memory.new ≡ memory_in s.now u k memory.old) }
{
    probe::transform::probe_transform(s, u, k, counts, memory)
}
