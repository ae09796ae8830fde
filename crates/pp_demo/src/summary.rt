// What a log has, in numbers.
ghost use Rattle.std.specs.Prelude.{◌≡◌, ◌+◌, ◌≤◌, ◌++◌, codes, count_by, decimal, length};
ghost use Rattle.pp_demo.specs.Summary.{is_asked, is_cut, is_kept, is_reply, is_woke, replies, summary_of, summary_text};

use arrayvec::ArrayVec;
use itoa::Buffer;
use pp_world::{Decision, Happening, Remark};

/// What a log has, in numbers.
#[derive(Clone, Copy, Debug, PartialEq, Eq)]
pub struct Summary {
    /// The lives.
    pub lives: u64,
    /// The replies that were decided.
    pub replies: u64,
    /// The replies that were cut short.
    pub cuts: u64,
    /// The writes to origins.
    pub asks: u64,
    /// How often the front of a body came to be kept on the disk.
    pub kept: u64,
}

/// The counts of this log.
pub fn summary_of(log: &[Happening]) -> Summary
    ensures { result ≡ summary_of log.now }
{
    Summary {
        lives: lives_in(log),
        replies: replies_in(log),
        cuts: cuts_in(log),
        asks: asks_in(log),
        kept: kept_in(log),
    }
}

fn lives_in(log: &[Happening]) -> u64
    ensures { result ≡ count_by is_woke log.now }
{
    log.iter().filter(|happening| is_woke(*happening)).count() as u64
}

fn replies_in(log: &[Happening]) -> u64
    ensures { result ≡ count_by is_reply log.now }
{
    log.iter().filter(|happening| is_reply(*happening)).count() as u64
}

fn cuts_in(log: &[Happening]) -> u64
    ensures { result ≡ count_by is_cut log.now }
{
    log.iter().filter(|happening| is_cut(*happening)).count() as u64
}

fn asks_in(log: &[Happening]) -> u64
    ensures { result ≡ count_by is_asked log.now }
{
    log.iter().filter(|happening| is_asked(*happening)).count() as u64
}

fn kept_in(log: &[Happening]) -> u64
    ensures { result ≡ count_by is_kept log.now }
{
    log.iter().filter(|happening| is_kept(*happening)).count() as u64
}

pub(crate) fn is_woke(happening: &Happening) -> bool
    ensures { result ≡ is_woke happening.now }
{
    matches!(happening, Happening::Woke(_))
}

fn is_reply(happening: &Happening) -> bool
    ensures { result ≡ is_reply happening.now }
{
    match happening {
        Happening::Noted(Remark::Taken(_, _, decision)) => replies(*decision),
        _ => false,
    }
}

/// Whether this decision is for a reply, and not for an exchange.
fn replies(decision: Decision) -> bool
    ensures { result ≡ replies decision }
{
    match decision {
        Decision::Hit(_, _)
        | Decision::Part(_, _)
        | Decision::Head
        | Decision::NotModified
        | Decision::Unsatisfiable
        | Decision::Relay
        | Decision::Refuse(_) => true,
        Decision::Validate | Decision::Fetch | Decision::Pass => false,
    }
}

fn is_cut(happening: &Happening) -> bool
    ensures { result ≡ is_cut happening.now }
{
    matches!(happening, Happening::Noted(Remark::Cut(_, _)))
}

fn is_asked(happening: &Happening) -> bool
    ensures { result ≡ is_asked happening.now }
{
    matches!(happening, Happening::Asked(_, _))
}

fn is_kept(happening: &Happening) -> bool
    ensures { result ≡ is_kept happening.now }
{
    matches!(happening, Happening::Noted(Remark::Kept(_, _, _, _)))
}

/// Room for the five lines, in bytes.
const TEXT_LEN: usize = 160;

impl Summary {
    /// The five lines of the counts: a word, a space, the number.
    pub fn text(&self) -> ArrayVec<u8, TEXT_LEN>
        ensures { result.items ≡ summary_text self.now }
    {
        let mut text = ArrayVec::new();
        put_line(b"lives ", self.lives, &mut text);
        put_line(b"replies ", self.replies, &mut text);
        put_line(b"cuts ", self.cuts, &mut text);
        put_line(b"asks ", self.asks, &mut text);
        put_line(b"kept ", self.kept, &mut text);
        text
    }
}

fn put_line(word: &[u8], count: u64, text: &mut ArrayVec<u8, TEXT_LEN>)
    requires { length text.old.items + length word.now + 21 ≤ TEXT_LEN }
    ensures line { text.new.items ≡ text.old.items ++ word.now ++ decimal count ++ codes "\n" }
    ensures short { length text.new.items ≤ length text.old.items + length word.now + 21 }
{
    let mut buffer = Buffer::new();
    let _ = text.try_extend_from_slice(word);
    let _ = text.try_extend_from_slice(buffer.format(count).as_bytes());
    let _ = text.try_extend_from_slice(b"\n");
}
