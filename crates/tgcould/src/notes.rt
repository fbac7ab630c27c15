//! The lines about answers on standard error.
ghost use Rattle.std.specs.Prelude.{◌≡◌, ◌<◌};
ghost use Rattle.tgcould.specs.Policies.{status_after};

use crate::ask::AnswerNote;
use itoa::Buffer;
use std::alloc::Global;

/// The lines about answers on standard error, and the exit status.
#[derive(Drop)]
pub struct Remarks {
    /// The lines, if memory never ran out.
    pub text: String,
    /// Whether memory ran out for a part of the lines.
    pub is_short: bool,
    /// The exit status. It is 1 if something could come about that must never come about.
    pub status: u8,
    // How many boxes are left in the stock, or `None` if they have no end.
    boxes: Option<u64>,
    ghost bounded: { status < 3 },
}

impl Remarks {
    /// No note. So many boxes are left in the stock. It is `None` if the boxes have no end.
    pub fn new(alloc: Global, boxes: Option<u64>) -> Remarks
        ensures { result.status ≡ 0 }
    {
        Remarks {
            text: String::new(alloc),
            is_short: false,
            status: 0,
            boxes,
        }
    }

    /// Adds how many boxes the lines of an answer need beyond the boxes that are left. It also adds whether something
    /// could come about that must never come about.
    pub fn add(&mut self, question: &str, told: AnswerNote, must_never: bool)
        ensures { self.new.status ≡ status_after self.old.status must_never told.is_never }
    {
        let more = match self.boxes {
            Some(boxes) => told.made.saturating_sub(boxes),
            None => 0,
        };
        if more > 0 {
            self.add_stock(question, more);
        }
        if must_never && !told.is_never {
            self.add_breach(question, told.is_open);
        }
    }

    // Adds that an answer's lines need so many boxes more.
    fn add_stock(&mut self, question: &str, more: u64)
        ensures { self.new.status ≡ self.old.status }
    {
        let mut buffer = Buffer::new();
        self.put("tgcould: ");
        self.put(question);
        self.put(": --stock must be longer by ");
        self.put(buffer.format(more));
        self.put("\n");
    }

    // Adds that what must never come about could, or that it isn't shown that it never does.
    fn add_breach(&mut self, question: &str, is_open: bool)
        ensures { self.new.status ≡ 1 }
    {
        self.status = 1;
        self.put("tgcould: --never '");
        self.put(question);
        self.put(if is_open {
            "': it isn't shown that it never comes about\n"
        } else {
            "': it could come about\n"
        });
    }

    /// Remarks that a text is no question. The words of the command line were looked at before, so none comes.
    pub fn refuse(&mut self)
        ensures { self.new.status ≡ 2 }
    {
        self.status = 2;
    }

    // Adds a text.
    fn put(&mut self, text: &str)
        ensures { self.new.status ≡ self.old.status }
    {
        self.is_short |= self.text.push_str(text).is_err();
    }
}
