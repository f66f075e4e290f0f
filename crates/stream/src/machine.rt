// What the stream knows between two bytes, and what a byte makes of it. specs/Machine.antt is the same in words of the definitions.
ghost use Rattle.std.specs.Prelude.{◌≡◌, Bool, true, false, [], ◌∷◌, ◌++◌, length, take, drop, set, MatchOption};
ghost use Rattle.definitions.specs.Bytes.{Bytes, TAB as tab, LF as lf, same};
ghost use Rattle.definitions.specs.Limits.{house};
ghost use Rattle.definitions.specs.RuleText.{simple_name, is_name};
ghost use Rattle.definitions.specs.Program.{do_word, conversion_word, conversions, conversion_of};
ghost use Rattle.convert.specs.Answers.{named};
ghost use Rattle.stream.specs.Machine.{at, mode, asked, matches as matches_of, next_matched, grown, second_line, complete, opened as opened_machine};
ghost use Rattle.stream.specs.Machine.{first_step, second_step, label_step, early_step, step as machine_step};

use convert::Conversion;
use text::kind::Kind;
use text::names;

const TAB: u8 = 9;

const LF: u8 = 10;

// The longest first line without its LF, `do` TAB `simplify`; the longest label.
const FIRST: usize = 11;

pub(crate) const LABEL: usize = 24;

// How `rule` TAB is counted: all five bytes; five also where a line has gone another way.
const RULE: usize = 5;

// The nine, in the order of their list in specs.
const CONVERSIONS: [Conversion; 9] = [
    Conversion::Simplify,
    Conversion::Nnf,
    Conversion::Pnf,
    Conversion::Snf,
    Conversion::Cnf,
    Conversion::Dnf,
    Conversion::PnfSnf,
    Conversion::SnfCnf,
    Conversion::SnfDnf,
];

// A place where no rule line can begin: the first line, a refused file, a label. `size` is how many bytes are kept.
#[derive(Clone, Copy)]
pub enum Early {
    First { size: usize },
    Refused,
    Label { size: usize },
}

// Where the stream is. `matched` is how many bytes of `rule` TAB the line has begun with, `size` how many bytes are kept.
#[derive(Clone, Copy)]
pub enum State {
    // In the first line, which is kept.
    First {
        size: usize,
    },
    // In a file that is refused.
    Refused,
    // In the second line.
    Second {
        conversion: Conversion,
        matched: usize,
    },
    // In a rule's label, which is kept.
    Label {
        conversion: Conversion,
        size: usize,
    },
    // In a rule's text, which is kept behind the label. `label` is the label's length.
    Text {
        conversion: Conversion,
        matched: usize,
        label: usize,
        size: usize,
    },
    // Behind a bad label: nothing is kept of the rule.
    Skipped {
        conversion: Conversion,
        matched: usize,
    },
    // Where no rule line can begin, and yet `rule` is said to stand before: a TAB opens a label, all else goes on as `before`. No run
    // comes here; a caller may begin here.
    Poised {
        conversion: Conversion,
        before: Early,
    },
}

// Keeps a byte behind the others, where there is room, and gives how many are kept then.
fn keep(kept: &mut [u8], size: usize, b: u8) -> usize
    ensures { (result ≡ grown size kept.old) × (kept.new ≡ set kept.old size b) }
{
    if size < kept.len() {
        kept[size] = b;
        size + 1
    } else {
        size
    }
}

// Whether a byte goes on with `rule` TAB behind `matched` of its bytes.
fn matches(matched: usize, b: u8) -> bool
    ensures { result ≡ matches_of matched b }
{
    matched < RULE && b == b"rule\t"[matched]
}

// How many bytes of `rule` TAB the line has begun with behind one more byte of a text.
fn matched_behind(matched: usize, b: u8) -> usize
    ensures { result ≡ next_matched matched b }
{
    if matches(matched, b) {
        matched + 1
    } else if b == LF {
        0
    } else {
        RULE
    }
}

// The name of a conversion.
pub(crate) fn name(conversion: Conversion) -> &'static [u8]
    ensures { result.now ≡ conversion_word (named conversion) }
{
    match conversion {
        Conversion::Simplify => b"simplify",
        Conversion::Nnf => b"nnf",
        Conversion::Pnf => b"pnf",
        Conversion::Snf => b"snf",
        Conversion::Cnf => b"cnf",
        Conversion::Dnf => b"dnf",
        Conversion::PnfSnf => b"pnf-snf",
        Conversion::SnfCnf => b"snf-cnf",
        Conversion::SnfDnf => b"snf-dnf",
    }
}

// Whether a first line without its LF names a conversion.
fn names_conversion(line: &[u8], conversion: Conversion) -> bool
    ensures { result ≡ same line.now (do_word ++ (tab ∷ conversion_word (named conversion))) }
{
    line.starts_with(b"do\t") && names::same_name(&line[3..], name(conversion))
}

// The conversion that a first line without its LF names. A loop and no match on the line: that would have fifty goals, one for each byte
// at which a line can differ.
fn conversion(line: &[u8]) -> Option<Conversion>
    ensures { asked result ≡ conversion_of conversions (line.now ++ (lf ∷ [])) }
{
    for conversion in CONVERSIONS {
        if names_conversion(line, conversion) {
            return Some(conversion);
        }
    }
    None
}

// Whether the label that is kept is a name without `#` or backtick.
fn kept_name(kept: &[u8], size: usize) -> bool
    ensures { result ≡ is_name house simple_name (take size kept.now) }
{
    reader::is_name_of_kind(names::clip(kept, 0, size), Kind::Predicate)
}

// A byte of the first line. At its LF it names a conversion, or the file is refused; one that is longer than the longest good one is bad
// at once.
#[tactic(auto, unfolding(crate::specs::Machine::first_step))]
fn in_first(kept: &mut [u8], size: usize, b: u8) -> State
    ensures { at result kept.new ≡ first_step kept.old size b }
{
    if b == LF {
        match conversion(names::clip(kept, 0, size)) {
            Some(conversion) => State::Second {
                conversion,
                matched: 0,
            },
            None => State::Refused,
        }
    } else if size < FIRST {
        State::First {
            size: keep(kept, size, b),
        }
    } else {
        State::Refused
    }
}

// A byte of the second line, which has to begin with `rule` TAB.
#[tactic(auto, unfolding(crate::specs::Machine::second_step))]
fn in_second(conversion: Conversion, matched: usize, b: u8) -> State
    ensures { (kept : Bytes) → at result kept ≡ second_step kept (named conversion) matched b }
{
    if matches(matched, b) {
        State::Second {
            conversion,
            matched: matched + 1,
        }
    } else {
        State::Refused
    }
}

// A byte of a label. At its LF the label is good or bad; one that is too long is bad at once.
#[tactic(auto, unfolding(crate::specs::Machine::label_step))]
fn in_label(kept: &mut [u8], conversion: Conversion, size: usize, b: u8) -> State
    ensures { at result kept.new ≡ label_step kept.old (named conversion) size b }
{
    if b == LF {
        if kept_name(kept, size) {
            State::Text {
                conversion,
                matched: 0,
                label: size,
                size,
            }
        } else {
            State::Skipped {
                conversion,
                matched: 0,
            }
        }
    } else if size < LABEL {
        State::Label {
            conversion,
            size: keep(kept, size, b),
        }
    } else {
        State::Skipped {
            conversion,
            matched: RULE,
        }
    }
}

// A byte where no rule line can begin. `conversion` is a label's.
fn in_early(kept: &mut [u8], conversion: Conversion, before: Early, b: u8) -> State
    ensures { at result kept.new ≡ early_step kept.old (named conversion) before b }
{
    match before {
        Early::First { size } => in_first(kept, size, b),
        Early::Refused => State::Refused,
        Early::Label { size } => in_label(kept, conversion, size, b),
    }
}

// A byte, in whatever state.
#[tactic(auto, unfolding(crate::specs::Machine::step, crate::specs::Machine::text_step))]
pub fn step(state: State, kept: &mut [u8], b: u8) -> State
    ensures { at result kept.new ≡ machine_step (at state kept.old) b }
{
    match state {
        State::First { size } => in_first(kept, size, b),
        State::Refused => State::Refused,
        State::Second {
            conversion,
            matched,
        } => in_second(conversion, matched, b),
        State::Label { conversion, size } => in_label(kept, conversion, size, b),
        State::Text {
            conversion,
            matched,
            label,
            size,
        } => State::Text {
            conversion,
            matched: matched_behind(matched, b),
            label,
            size: keep(kept, size, b),
        },
        State::Skipped {
            conversion,
            matched,
        } => State::Skipped {
            conversion,
            matched: matched_behind(matched, b),
        },
        State::Poised { conversion, before } => in_early(kept, conversion, before, b),
    }
}

// Where a byte completes `rule` TAB at the start of a line, the label behind it; None where it does not.
pub(crate) fn opened(state: State, b: u8) -> Option<State>
    ensures { MatchOption result (complete (mode state) b ≡ false)
        (λ s. (complete (mode state) b ≡ true) × ((kept : Bytes) → at s kept ≡ opened_machine (at state kept))) }
{
    match state {
        State::Poised { conversion, .. }
        | State::Second {
            conversion,
            matched: 4,
        }
        | State::Text {
            conversion,
            matched: 4,
            ..
        }
        | State::Skipped {
            conversion,
            matched: 4,
        } if b == TAB => Some(State::Label {
            conversion,
            size: 0,
        }),
        _ => None,
    }
}
