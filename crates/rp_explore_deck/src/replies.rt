//! Reads a reply, as a run prints it.

ghost use Rattle.std.specs.Prelude.{◌≡◌};
ghost use Rattle.rp_explore_deck.specs.GuardLines.{reply_word_named, truth_value_at, reply_from, reply_at};
ghost use Rattle.rp_words.specs.Reading.{Gives};
ghost use Rattle.rp_words.specs.Words.{unread};

use rp_base::{DeckReason, Reply};
use rp_words::{Words, named, truth_named};

/// The first words of replies.
const REPLIES: [(&[u8], ReplyWord); 5] = [
    (b"value", ReplyWord::Value),
    (b"truth", ReplyWord::Truth),
    (
        b"Constraint_Error",
        ReplyWord::Exception(Reply::ConstraintError),
    ),
    (b"Program_Error", ReplyWord::Exception(Reply::ProgramError)),
    (
        b"No_Such_Operation",
        ReplyWord::Exception(Reply::NoSuchOperation),
    ),
];

/// The first word of a reply.
#[derive(Clone, Copy)]
pub enum ReplyWord {
    /// A number follows.
    Value,
    /// `true` or `false` follows.
    Truth,
    /// The whole reply.
    Exception(Reply),
}

impl ReplyWord {
    /// The one that the word is.
    fn named(word: &[u8]) -> Option<ReplyWord>
        ensures { result ≡ reply_word_named word.now }
    {
        named(&REPLIES, word)
    }
}

/// Reads `value V`, `truth true`, `truth false` or an exception's name.
#[tactic(auto, unfolding(crate::specs::GuardLines::reply_at))]
pub fn read_reply(words: &mut Words<'_>) -> Result<Reply, DeckReason>
    ensures { Gives (λ reply. (reply, unread words.new)) result (reply_at (unread words.old)) }
{
    let first = ReplyWord::named(words.take()?).ok_or(DeckReason::UnknownWord)?;
    read_after(first, words)
}

/// Reads the rest of a reply, after its first word.
fn read_after(first: ReplyWord, words: &mut Words<'_>) -> Result<Reply, DeckReason>
    ensures { Gives (λ reply. (reply, unread words.new)) result
        (reply_from first (unread words.old)) }
{
    match first {
        ReplyWord::Value => Ok(Reply::Value(words.take_integer()?)),
        ReplyWord::Truth => Ok(Reply::Truth(read_truth_value(words)?)),
        ReplyWord::Exception(reply) => Ok(reply),
    }
}

/// Reads `true` or `false`.
#[tactic(auto, unfolding(crate::specs::GuardLines::truth_value_at))]
fn read_truth_value(words: &mut Words<'_>) -> Result<bool, DeckReason>
    ensures { Gives (λ value. (value, unread words.new)) result
        (truth_value_at (unread words.old)) }
{
    truth_named(words.take()?).ok_or(DeckReason::UnknownWord)
}
