// The reader of rule text: bytes in; a table of nodes out, or what is wrong with a line.
#![tactic(auto)]

ghost use Rattle.std.specs.Prelude.{◌≤◌, ◌<◌, ◌+◌, ◌^◌, ◌≡◌, ◌⊎◌, false, [], length, drop, MatchOption};
ghost use Rattle.definitions.specs.Bytes.{split};
ghost use Rattle.definitions.specs.Limits.{house};
ghost use Rattle.definitions.specs.RuleText.{letter, word, hashed, is_name};
ghost use Rattle.definitions.specs.Reading.{some_due, parse as parse_of, read as reading};
ghost use Rattle.text.specs.declared.kind.Kind.TheVariants.{All, Exists, Predicate, Function, Variable, Constant};
ghost use Rattle.text.specs.Kinds.{number};
ghost use Rattle.text.specs.Words.{word_of};
ghost use Rattle.reader.specs.Lines.{upto, Named, Unnamed, manner_of, manner_at, digit_value, Counted, Tallied, kind_is_term, parts_are_terms};
ghost use Rattle.reader.specs.Lines.{Alone, Ends, Fields, Saw, SawAs};
ghost use Rattle.reader.specs.Levels.{due, Ready, Top, Served, Fit, Appended, Does};
ghost use Rattle.reader.specs.Reader.{Says, Roomy, Room, filled};

use text::kind::Kind;
use text::node;
use text::table::Table;

const LF: u8 = b'\n';

const TAB: u8 = b'\t';

// The limits that only the text has: bytes of a line and of a name, variables of a block.
const LINE: usize = 1024;

const NAME: usize = 24;

const BLOCK: usize = 32;

// A level for each depth, and one more for the parts of a node at the last.
const LEVELS: usize = Table::DEPTH + 1;

// How many bytes of s stand before the first b.
fn upto(s: &[u8], b: u8) -> usize
    ensures { (result ≡ upto b s.now) × (result ≤ length s.now) }
{
    s.iter().position(|x| *x == b).unwrap_or(s.len())
}

// Where the first b stands from `from` on, or where s ends.
fn find(s: &[u8], from: usize, b: u8) -> usize
    requires { from ≤ length s.now }
    ensures { (result ≡ from + upto b (drop from s.now)) × (from ≤ result) × (result ≤ length s.now) }
{
    from + upto(&s[from..], b)
}

// The kind that a word names, if it is a keyword.
#[tactic(auto, using(crate::proofs::Keywords::unnamed))]
fn keyword(w: &[u8]) -> Option<Kind>
    ensures { MatchOption result (Unnamed w.now) (Named w.now) }
{
    match w {
        b"top" => Some(Kind::Top),
        b"bot" => Some(Kind::Bottom),
        b"not" => Some(Kind::Not),
        b"and" => Some(Kind::And),
        b"or" => Some(Kind::Or),
        b"imp" => Some(Kind::Implies),
        b"iff" => Some(Kind::Iff),
        b"eq" => Some(Kind::Equals),
        b"all" => Some(Kind::All),
        b"ex" => Some(Kind::Exists),
        b"pred" => Some(Kind::Predicate),
        b"fun" => Some(Kind::Function),
        b"var" => Some(Kind::Variable),
        b"con" => Some(Kind::Constant),
        _ => None,
    }
}

// Whether b is a letter or the underscore.
#[tactic(auto, unfolding(definitions::specs::RuleText::letter))]
fn is_letter(b: u8) -> bool
    ensures { result ≡ letter b }
{
    b.is_ascii_alphabetic() || b == b'_'
}

// Whether b is a letter, the underscore or a digit.
#[tactic(auto, unfolding(definitions::specs::RuleText::word, definitions::specs::RuleText::digit))]
fn is_word(b: u8) -> bool
    ensures { result ≡ word b }
{
    is_letter(b) || b.is_ascii_digit()
}

// The same, or #.
#[tactic(auto, unfolding(definitions::specs::RuleText::hashed))]
fn is_hashed(b: u8) -> bool
    ensures { result ≡ hashed b }
{
    is_word(b) || b == b'#'
}

// Whether s is a name as the kind has it: a variable's may end in backticks, a predicate's or a label's is plain, and where the kind is
// any other, `#` may stand in it, not first.
#[tactic(auto, using(crate::proofs::Pieces::no_names))]
pub fn is_name_of_kind(s: &[u8], kind: Kind) -> bool
    ensures { result ≡ is_name house (manner_of kind) s.now }
{
    if s.len() > NAME {
        return false;
    }
    let [first, rest @ ..] = s else {
        return false;
    };
    if !is_letter(*first) {
        return false;
    }
    match kind {
        Kind::Variable => {
            let end = rest.iter().position(|b| !is_word(*b)).unwrap_or(rest.len());
            rest[end..].iter().all(|b| *b == b'`')
        }
        Kind::Predicate => rest.iter().all(|b| is_word(*b)),
        _ => rest.iter().all(|b| is_hashed(*b)),
    }
}

// The same of a kind's number. A number that is no kind's is taken as a constant's.
pub fn is_name_of(s: &[u8], kind: u64) -> bool
    ensures { result ≡ is_name house (manner_at kind) s.now }
{
    is_name_of_kind(s, Kind::try_from(kind).unwrap_or(Kind::Constant))
}

// A digit's value.
#[tactic(auto, unfolding(definitions::specs::RuleText::digit))]
fn value(b: u8) -> Option<u64>
    ensures { result ≡ digit_value b }
{
    if b.is_ascii_digit() {
        Some(u64::from(b - b'0'))
    } else {
        None
    }
}

// The number that s writes, if it has one or two digits, the first of them not 0 where there are two: no other text writes an argument count.
#[tactic(auto, using(crate::proofs::Fields::counting))]
fn count(s: &[u8]) -> Option<u64>
    ensures { Counted s.now result }
{
    match s {
        [ones] => value(*ones),
        [tens, ones] => {
            let tens = value(*tens)?;
            let ones = value(*ones)?;
            if tens == 0 {
                None
            } else {
                Some(10 * tens + ones)
            }
        }
        _ => None,
    }
}

// A line of the text: its bytes, where they stand in the text, and its number.
#[derive(Clone, Copy)]
struct Line<'a> {
    bytes: &'a [u8],
    at: usize,
    number: usize,
    ghost low: { at ≤ 2 ^ 30 },
}

// How many variables the fields of s from `start` on are, if all of them are variables, and no more than a block may have.
#[tactic(auto, using(crate::proofs::Fields::tallying))]
fn variables(s: &[u8], start: usize) -> Option<usize>
    requires { start ≤ length s.now }
    ensures { Tallied (split 9 (drop start s.now)) result }
{
    let mut from = start;
    for n in 1..=BLOCK {
        let end = find(s, from, TAB);
        if !is_name_of_kind(&s[from..end], Kind::Variable) {
            return None;
        }
        if end == s.len() {
            return Some(n);
        }
        from = end + 1;
    }
    None
}

// A table's word, its symbol in the rule text.
fn word(kind: Kind, count: u64, start: usize, size: usize) -> u64
    requires { (count ≤ 63) × (size ≤ 63) × (start < 2 ^ 32) }
    ensures { result ≡ word_of (number kind) count 0 size start }
{
    node::pack(node::Node {
        kind,
        count,
        made: false,
        start: start as u64,
        size: size as u64,
    })
}

// A line's node: its kind; how many parts it has; its first word; how many variables, and where in the line they start.
#[derive(Clone, Copy)]
struct Seen {
    kind: Kind,
    parts: u64,
    word: u64,
    variables: usize,
    from: usize,
}

impl<'a> Line<'a> {
    // A line of a keyword alone, which ends at `end`; its node has so many parts.
    #[tactic(auto, using(crate::proofs::Lines::plain_more, crate::proofs::Lines::plain_sees))]
    fn alone(self, end: usize, kind: Kind, parts: u64) -> Option<Seen>
        requires { (Ends self.bytes.now end) × (Alone kind parts) }
        ensures { SawAs kind end self.entry.at self.entry.bytes.now result }
    {
        if end < self.bytes.len() {
            return None;
        }
        Some(Seen {
            kind,
            parts,
            word: word(kind, 0, 0, 0),
            variables: 0,
            from: 0,
        })
    }

    // A block's line: behind the keyword, which ends at `end`, stand its variables.
    #[tactic(auto, using(crate::proofs::Lines::block_lines))]
    fn block(self, end: usize, kind: Kind) -> Option<Seen>
        requires { (Ends self.bytes.now end) × ((kind ≡ All) ⊎ (kind ≡ Exists)) }
        ensures { SawAs kind end self.entry.at self.entry.bytes.now result }
    {
        if end == self.bytes.len() {
            return None;
        }
        let from = end + 1;
        let n = variables(self.bytes, from)?;
        Some(Seen {
            kind,
            parts: 1,
            word: word(kind, n as u64, 0, 0),
            variables: n,
            from,
        })
    }

    // The line of a variable or a constant: behind the keyword stands its name.
    #[tactic(auto, using(crate::proofs::Lines::symbol_lines))]
    fn symbol(self, end: usize, kind: Kind) -> Option<Seen>
        requires { (Ends self.bytes.now end) × ((kind ≡ Variable) ⊎ (kind ≡ Constant)) }
        ensures { SawAs kind end self.entry.at self.entry.bytes.now result }
    {
        if end == self.bytes.len() {
            return None;
        }
        let from = end + 1;
        let stop = find(self.bytes, from, TAB);
        if stop < self.bytes.len() || !is_name_of_kind(&self.bytes[from..stop], kind) {
            return None;
        }
        Some(Seen {
            kind,
            parts: 0,
            word: word(kind, 0, self.at + from, stop - from),
            variables: 0,
            from: 0,
        })
    }

    // The line of a predicate or a function: behind the keyword stand its name and its argument count.
    #[tactic(auto, using(crate::proofs::Lines::applied_lines))]
    fn applied(self, end: usize, kind: Kind) -> Option<Seen>
        requires { (Ends self.bytes.now end) × ((kind ≡ Predicate) ⊎ (kind ≡ Function)) }
        ensures { SawAs kind end self.entry.at self.entry.bytes.now result }
    {
        if end == self.bytes.len() {
            return None;
        }
        let from = end + 1;
        let stop = find(self.bytes, from, TAB);
        if stop == self.bytes.len() || !is_name_of_kind(&self.bytes[from..stop], kind) {
            return None;
        }
        let last = stop + 1;
        if find(self.bytes, last, TAB) < self.bytes.len() {
            return None;
        }
        let parts = count(&self.bytes[last..])?;
        if parts > Table::ARGUMENTS as u64 {
            return None;
        }
        Some(Seen {
            kind,
            parts,
            word: word(kind, parts, self.at + from, stop - from),
            variables: 0,
            from: 0,
        })
    }

    // The line's node.
    #[tactic(auto, using(crate::proofs::Lines::parsing))]
    fn parse(self) -> Option<Seen>
        ensures { Saw self.entry.at self.entry.bytes.now (parse_of house self.entry.bytes.now) result }
    {
        if self.bytes.len() > LINE {
            return None;
        }
        let end = find(self.bytes, 0, TAB);
        let kind = keyword(&self.bytes[..end])?;
        match kind {
            Kind::Top | Kind::Bottom => self.alone(end, kind, 0),
            Kind::Not => self.alone(end, kind, 1),
            Kind::And | Kind::Or | Kind::Implies | Kind::Iff | Kind::Equals => {
                self.alone(end, kind, 2)
            }
            Kind::All | Kind::Exists => self.block(end, kind),
            Kind::Predicate | Kind::Function => self.applied(end, kind),
            Kind::Variable | Kind::Constant => self.symbol(end, kind),
        }
    }

    // Writes the variables that stand in the line from `start` on, so many of them.
    fn write_variables(self, start: usize, count: usize, table: &mut Table)
        requires table { (Fit table.old) × (table.old.used + count ≤ house.weight) }
        requires fields { (length self.bytes.now ≤ house.line) × (Fields self.bytes.now start count) }
        ensures fits { (Fit table.new) × (table.new.used ≡ table.old.used + count) }
        ensures writes { Appended self.entry.at self.entry.bytes.now start count table.old table.new }
    {
        let mut from = start;
        let full = table.used + count;
        for n in table.used..full {
            let end = find(self.bytes, from, TAB);
            table.nodes[n] = word(Kind::Variable, 0, self.at + from, end - from);
            from = end + 1;
        }
        table.used = full;
    }
}

// Whether a kind's nodes are terms.
fn is_term(kind: Kind) -> bool
    ensures { result ≡ kind_is_term kind }
{
    matches!(kind, Kind::Function | Kind::Variable | Kind::Constant)
}

// Whether the parts of a kind's nodes are terms.
fn has_terms(kind: Kind) -> bool
    ensures { result ≡ parts_are_terms kind }
{
    matches!(kind, Kind::Equals | Kind::Predicate | Kind::Function)
}

// How many parts are still due at one depth, and whether they are terms.
#[derive(Clone, Copy)]
struct Level {
    parts: u64,
    terms: bool,
}

// What is due while a text is read, a level for each depth; something is due at the last of them. An array with its height beside it, as
// there is no heap.
#[derive(Drop)]
struct Stack {
    levels: [Level; LEVELS],
    depth: usize,
}

impl Stack {
    // One formula is due, at depth 1.
    fn new() -> Stack
        ensures { (Ready result) × (due result ≡ some_due 1 false 1) }
    {
        Stack {
            levels: [Level {
                parts: 1,
                terms: false,
            }; LEVELS],
            depth: 1,
        }
    }

    // The level whose part is due first.
    #[tactic(auto, using(crate::proofs::Steps::top_is, crate::proofs::Steps::no_level))]
    fn top(&self) -> Option<Level>
        requires { Ready self.now }
        ensures { MatchOption result (due self.now ≡ []) (Top self.now) }
    {
        let last = self.depth.checked_sub(1)?;
        Some(self.levels[last])
    }

    // A part of the top level is served, and its own parts are due above it. Levels of which nothing is due any more go.
    #[tactic(auto, using(crate::proofs::Steps::nothing_due, crate::proofs::Steps::served))]
    fn serve(&mut self, level: Level)
        requires { (Ready self.old) × (0 < self.old.depth) × (self.old.depth ≤ house.depth) }
        ensures { (Ready self.new) × (Served self.old level self.new) }
    {
        self.levels[self.depth - 1].parts -= 1;
        self.levels[self.depth] = level;
        self.depth += 1;
        while self.depth > 0 && self.levels[self.depth - 1].parts == 0 {
            self.depth -= 1;
        }
    }
}

// What is wrong with a text, and at which line: it is malformed there (refusal 2), or too large (refusal 3).
#[derive(Clone, Copy)]
pub enum Flaw {
    Malformed(usize),
    Large(usize),
}

// What a line does where something is due and some words stand in the table. A line that is bad in any way is malformed, even where it is
// too large as well.
#[tactic(auto, using(crate::proofs::Steps::goes, crate::proofs::Steps::same_sort))]
fn step(line: Line, stack: &mut Stack, table: &mut Table) -> Result<(), Flaw>
    requires { (Ready stack.old) × (Fit table.old) }
    ensures safe { (Ready stack.new) × (Fit table.new) }
    ensures does { Does line.entry.at line.entry.number line.entry.bytes.now stack.old table.old result stack.new table.new }
{
    let top = stack.top().ok_or(Flaw::Malformed(line.number))?;
    let seen = line.parse().ok_or(Flaw::Malformed(line.number))?;
    if is_term(seen.kind) != top.terms {
        return Err(Flaw::Malformed(line.number));
    }
    if stack.depth > Table::DEPTH || table.used + seen.variables >= Table::WEIGHT {
        return Err(Flaw::Large(line.number));
    }
    stack.serve(Level {
        parts: seen.parts,
        terms: has_terms(seen.kind),
    });
    table.nodes[table.used] = seen.word;
    table.used += 1;
    line.write_variables(seen.from, seen.variables, table);
    Ok(())
}

// Reads a rule text into a table that is lent, line by line: a table is eight kilobytes, and is not moved. The last piece, behind the last LF,
// has to be empty, with nothing due. The loop goes by places and not over the pieces, as a table's symbols are places in the text.
#[tactic(auto, using(crate::proofs::Runs::starts, crate::proofs::Runs::leads))]
pub fn read_into(text: &[u8], table: &mut Table) -> Result<(), Flaw>
    ensures says { Says (reading house text.now) text.now (filled result table.new) }
    ensures room { Roomy table.new }
{
    table.used = 0;
    let mut stack = Stack::new();
    let mut at = 0;
    let mut number = 1;
    loop {
        let end = find(text, at, LF);
        if end == text.len() {
            return if stack.depth == 0 && end == at {
                Ok(())
            } else {
                Err(Flaw::Malformed(number))
            };
        }
        let line = Line {
            bytes: &text[at..end],
            at,
            number,
        };
        step(line, &mut stack, table)?;
        at = end + 1;
        number += 1;
    }
}

// The same, in a table of its own.
pub fn read(text: &[u8]) -> Result<Table, Flaw>
    ensures says { Says (reading house text.now) text.now result }
    ensures room { Room result }
{
    let mut table = Table::empty();
    read_into(text, &mut table)?;
    Ok(table)
}
