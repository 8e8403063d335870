// The query program's lines: what a line asks for, its answer, and a stream of bytes cut into lines.
//
// Holds: `read_line` and `answer` for one line; `header`, `start`, `feed` and `finish` for a stream that arrives in
// chunks. Of a line that has begun the state keeps 22 bytes at most: enough to tell that it is too long, so that a line
// of any length takes constant memory. proofs/Stream.antt shows that however a stream is cut into chunks, what is
// written is what its lines answer.
// Ports: nothing.
// Adds: all of it.
#![tactic(auto)]

ghost use Rattle.std.specs.Prelude.{◌≡◌, ◌≤◌, length, Some};
ghost use Rattle.lines.specs.Line.{query_after, query_of, walk_of, mark, answer_to};
ghost use Rattle.lines.specs.Stream.{head_line};
ghost use Rattle.lines.specs.Calls.{over, fitting, answered, fresh, line_of, pushed, next_of, says_of, room_for, taken, fed_of, written, ending};

// What a line asks for: a walk. The kind is 01's number, as `magic_helpers::walk` takes it: an enum would be turned back at its
// one use.
#[derive(Clone, Copy)]
pub struct Query {
    pub kind: u8,
    pub square: u8,
    pub blockers: u64,
}

// The first bytes of a line that has begun, and how many there are. The fields stay open, a length beside a buffer:
// `feed` and `finish` promise their answer for any value of it, also one whose len is above 22.
#[derive(Drop)]
pub struct Pending {
    pub bytes: [u8; 22],
    pub len: usize,
}

// What a chunk leaves, how many bytes it made written, and how many of its own were taken.
#[derive(Drop)]
pub struct Fed {
    pub pending: Pending,
    pub len: usize,
    pub used: usize,
}

// The rest of a line of 21 bytes, after its piece.
#[tactic(auto, using(std::proofs::lemmas::Bool::Decides::nat_tests), unfolding(crate::specs::Line::query_after))]
fn read_after(kind: u8, line: &[u8]) -> Option<Query>
    requires { length line.now ≡ 21 }
    ensures { result ≡ query_after kind line.now }
{
    if line[1] != b' ' {
        return None;
    }
    let square = square::from_str(&line[2..4]).ok()?;
    if line[4] != b' ' {
        return None;
    }
    let blockers = hex_digits::read(&line[5..21])?;
    Some(Query {
        kind,
        square,
        blockers,
    })
}

#[tactic(auto, using(std::proofs::lemmas::Bool::Decides::nat_tests), unfolding(crate::specs::Line::query_of))]
pub fn read_line(line: &[u8]) -> Option<Query>
    ensures { result ≡ query_of line.now }
{
    if line.len() != 21 {
        return None;
    }
    match line[0] {
        b'R' => read_after(0, line),
        b'B' => read_after(1, line),
        _ => None,
    }
}

// The walk that a line asks for. A line that can be read asks for a block, so that the walk is never refused.
#[tactic(auto, using(crate::proofs::Line::block_given), unfolding(crate::specs::Line::walk_of))]
fn walk_of(line: &[u8]) -> Option<u64>
    ensures { result ≡ walk_of (query_of line.now) }
{
    let query = read_line(line)?;
    magic_helpers::walk(query.kind, query.square, query.blockers).ok()
}

// Puts the answer to a line that was read at the start of out.
fn put_walk(line: &[u8], walk: u64, out: &mut [u8])
    requires line_len { length line.now ≡ 21 }
    requires in_bounds { 39 ≤ length out.old }
    ensures { out.new ≡ over (answer_to line.now (Some walk)) out.old }
{
    out[..21].copy_from_slice(line);
    out[21] = b' ';
    hex_digits::write(walk, &mut out[22..]);
    out[38] = b'\n';
}

// Puts the answer to any other line at the start of out, where it fits, and gives how many bytes it put.
#[tactic(auto, using(crate::proofs::Calls::fitting_not, crate::proofs::Calls::fitting_is), unfolding(crate::specs::Calls::over))]
fn put_mark(out: &mut [u8]) -> usize
    ensures value { result ≡ length (fitting mark (length out.old)) }
    ensures out_after { out.new ≡ over (fitting mark (length out.old)) out.old }
{
    if out.len() < 2 {
        return 0;
    }
    out[..2].copy_from_slice(b"?\n");
    2
}

// Puts the answer to a line at the start of out, and gives the answer's length. Where out is too short for it, out stays
// as it is, and 0 is given.
#[tactic(auto, using(crate::proofs::Calls::answered_not, crate::proofs::Calls::answered_mark, crate::proofs::Calls::answered_walk, crate::proofs::Line::walk_long, crate::proofs::Line::walk_length, crate::proofs::Over::over_none))]
pub fn answer(line: &[u8], out: &mut [u8]) -> usize
    ensures value { result ≡ length (answered line.now (length out.old)) }
    ensures out_after { out.new ≡ over (answered line.now (length out.old)) out.old }
{
    let Some(walk) = walk_of(line) else {
        return put_mark(out);
    };
    if out.len() < 39 {
        return 0;
    }
    put_walk(line, walk, out);
    39
}

pub type Header = [u8; 9];

// The first line of every output.
pub fn header() -> Header
    ensures { result ≡ head_line }
{
    *b"slider 1\n"
}

// The state before a stream's first byte.
pub fn start() -> Pending
    ensures { result ≡ fresh }
{
    Pending {
        bytes: [0; 22],
        len: 0,
    }
}

impl Pending {
    // A byte more of a line. The bytes after the 22nd are left out.
    #[tactic(auto, using(crate::proofs::Calls::pushed_in, crate::proofs::Calls::pushed_full))]
    fn push(&mut self, byte: u8)
        ensures { self.new ≡ pushed self.old byte }
    {
        if self.len < 22 {
            self.bytes[self.len] = byte;
            self.len += 1;
        }
    }

    // The answer to the line that has begun; a state that says more than 22 bytes has 22.
    fn answer(&self, out: &mut [u8]) -> usize
        ensures value { result ≡ length (answered (line_of self.now) (length out.old)) }
        ensures out_after { out.new ≡ over (answered (line_of self.now) (length out.old)) out.old }
    {
        answer(&self.bytes[..self.len.min(22)], out)
    }

    // Takes one byte of the stream, and gives how many bytes it made written.
    #[tactic(auto, using(crate::proofs::Calls::next_in, crate::proofs::Calls::says_in, crate::proofs::Calls::next_end, crate::proofs::Calls::answered_end, crate::proofs::Over::over_none))]
    fn take_byte(&mut self, byte: u8, out: &mut [u8]) -> usize
        requires { length (says_of self.old byte) ≤ length out.old }
        ensures pending_value { self.new ≡ next_of self.old byte }
        ensures len_value { result ≡ length (says_of self.old byte) }
        ensures out_after { out.new ≡ over (says_of self.old byte) out.old }
    {
        if byte != b'\n' {
            self.push(byte);
            return 0;
        }
        let len = self.answer(out);
        *self = start();
        len
    }
}

// How many bytes of a chunk a buffer of that length has room for.
fn room(len: usize) -> usize
    ensures { result ≡ room_for len }
{
    len.saturating_sub(44) / 2
}

// Takes a chunk of the stream, and puts the answers of the lines that end in it at the start of out. As many bytes of
// the chunk are taken as out has room for.
#[tactic(auto, using(crate::proofs::Calls::says_bound))]
pub fn feed(pending: Pending, chunk: &[u8], out: &mut [u8]) -> Fed
    ensures value { result ≡ fed_of pending chunk.now (length out.old) }
    ensures out_after { out.new ≡ over (written pending (taken chunk.now (length out.old))) out.old }
{
    let n = chunk.len().min(room(out.len()));
    let mut state = pending;
    let mut at: usize = 0;
    for byte in &chunk[..n] {
        at += state.take_byte(*byte, &mut out[at..]);
    }
    Fed {
        pending: state,
        len: at,
        used: n,
    }
}

// Puts the answer to a last line that no line feed ended at the start of out, and gives the answer's length. Where there
// is no such line or out is too short for the answer, out stays as it is, and 0 is given.
#[tactic(auto, using(crate::proofs::Calls::ending_none, crate::proofs::Calls::ending_some, crate::proofs::Over::over_none))]
pub fn finish(pending: Pending, out: &mut [u8]) -> usize
    ensures value { result ≡ length (ending pending (length out.old)) }
    ensures out_after { out.new ≡ over (ending pending (length out.old)) out.old }
{
    if pending.len == 0 {
        return 0;
    }
    pending.answer(out)
}
