//! Short lines, put together in place.

ghost use Rattle.std.specs.Prelude.{◌≡◌, ◌+◌, ◌≤◌, ◌++◌, ◌∷◌, [], length, decimal};

use crate::printed::ReplyLine;
use itoa::write_digits;
use rp_base::Reply;

/// How many bytes a short line has at most.
const MOST: usize = 80;

/// The end of a line, which is put together from its last part to its first.
#[derive(Drop)]
pub struct ShortLine {
    bytes: [u8; MOST],
    /// Where the part begins that is there already.
    start: usize,
    ghost within: { start ≤ 80 },
}

impl ShortLine {
    ghost use Rattle.std.specs.Fmt.{signed_decimal};
    ghost use Rattle.rp_output.specs.Printed.{reply_text_of, reply_line_of};
    ghost use Rattle.rp_output.specs.ShortLine.{short_line_text};

    /// Nothing yet.
    pub fn new() -> Self
        ensures text { short_line_text result ≡ [] }
        ensures room { result.start ≡ 80 }
    {
        ShortLine {
            bytes: [0; MOST],
            start: MOST,
        }
    }

    /// What was put together.
    pub fn as_slice(&self) -> &[u8]
        ensures { result.now ≡ short_line_text self.now }
    {
        &self.bytes[self.start..]
    }

    /// Puts these bytes in front.
    fn put(&mut self, text: &[u8])
        requires { length text.now ≤ self.old.start }
        ensures text { short_line_text self.new ≡ text.now ++ short_line_text self.old }
        ensures room { self.new.start + length text.now ≡ self.old.start }
    {
        let start = self.start - text.len();
        self.bytes[start..self.start].copy_from_slice(text);
        self.start = start;
    }

    /// Puts the number in front.
    fn put_number(&mut self, number: u64)
        requires { 20 ≤ self.old.start }
        ensures text { short_line_text self.new ≡ decimal number ++ short_line_text self.old }
        ensures room { self.old.start ≤ self.new.start + 20 }
    {
        self.start = write_digits(number, &mut self.bytes, self.start);
    }

    /// Puts the number in front, with its sign if it is below 0.
    fn put_integer(&mut self, number: i64)
        requires { 21 ≤ self.old.start }
        ensures text { short_line_text self.new ≡ signed_decimal number ++ short_line_text self.old }
        ensures room { self.old.start ≤ self.new.start + 21 }
    {
        self.put_number(number.unsigned_abs());
        if number < 0 {
            self.put(b"-");
        }
    }

    /// Puts the words for a reply in front.
    fn put_reply(&mut self, reply: Reply)
        requires { 30 ≤ self.old.start }
        ensures text { short_line_text self.new ≡ reply_text_of reply ++ short_line_text self.old }
        ensures room { self.old.start ≤ self.new.start + 30 }
    {
        match reply {
            Reply::Value(value) => {
                self.put_integer(value);
                self.put(b"value ");
            }
            Reply::Truth(true) => self.put(b"truth true"),
            Reply::Truth(false) => self.put(b"truth false"),
            Reply::ConstraintError => self.put(b"Constraint_Error"),
            Reply::ProgramError => self.put(b"Program_Error"),
            Reply::NoSuchOperation => self.put(b"No_Such_Operation"),
        }
    }

    /// Puts the line of a reply and its end in front, for a name of at most 16 bytes.
    pub fn put_reply_line(&mut self, line: &ReplyLine<'_>)
        requires name { length line.now.task.now ≤ 16 }
        requires room { self.old.start ≡ 80 }
        ensures { short_line_text self.new
            ≡ reply_line_of line.now.task.now line.now.number line.now.reply
            ++ (10 ∷ short_line_text self.old) }
    {
        self.put(b"\n");
        self.put_reply(line.reply);
        self.put(b" ");
        self.put_number(u64::from(line.number));
        self.put(b" ");
        self.put(line.task.as_bytes());
        self.put(b"reply ");
    }
}
