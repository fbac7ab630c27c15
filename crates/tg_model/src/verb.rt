//! The table of commands. It has what may be asked for, by which word, and what comes after the word.
ghost use Rattle.std.specs.Prelude.{◌≡◌, ◌↔◌, IsTrue};
ghost use Rattle.std.specs.Str.{bytes_eq};
ghost use Rattle.tg_model.specs.Commands.{word_of as word_told};

use tg_rights::Label;

/// What a command asks for.
#[derive(Clone, Copy, PartialEq, Eq, Debug)]
pub enum Verb {
    Take,
    Grant,
    Remove,
    Read,
    Write,
    Append,
    Inspect,
    List,
    Retire,
}

/// The operands that follow the word of a command, in their order: names of vertices, and then rights or a value.
#[derive(Clone, Copy, Debug)]
pub enum Arguments {
    /// Nothing.
    Bare,
    /// A vertex.
    Target {
        target: u64,
    },
    /// A vertex, and what is written to it.
    Value {
        target: u64,
        value: u64,
    },
    /// A vertex, and rights over it.
    Rights {
        target: u64,
        rights: Label,
    },
    /// Two vertices, and rights over the second.
    Move {
        via: u64,
        target: u64,
        rights: Label,
    },
}

impl Verb {
    // Whether two are the same.
    #[inline(always)]
    pub(crate) fn is(self, other: Verb) -> bool
        ensures { IsTrue result ↔ (self ≡ other) }
    {
        self == other
    }

    /// Its word.
    #[inline(always)]
    pub fn word(self) -> &'static [u8]
        ensures { result.now ≡ word_told self }
    {
        match self {
            Verb::Take => b"take",
            Verb::Grant => b"grant",
            Verb::Remove => b"remove",
            Verb::Read => b"read",
            Verb::Write => b"write",
            Verb::Append => b"append",
            Verb::Inspect => b"inspect",
            Verb::List => b"list",
            Verb::Retire => b"retire",
        }
    }
}

impl Arguments {
    // Whether two are the same.
    pub(crate) fn same(&self, other: &Arguments) -> bool
        ensures { IsTrue result ↔ (self.now ≡ other.now) }
    {
        match (self, other) {
            (Arguments::Bare, Arguments::Bare) => true,
            (
                Arguments::Target { target },
                Arguments::Target {
                    target: other_target,
                },
            ) => *target == *other_target,
            (
                Arguments::Value { target, value },
                Arguments::Value {
                    target: other_target,
                    value: other_value,
                },
            ) => *target == *other_target && *value == *other_value,
            (
                Arguments::Rights { target, rights },
                Arguments::Rights {
                    target: other_target,
                    rights: other_rights,
                },
            ) => *target == *other_target && *rights == *other_rights,
            (
                Arguments::Move {
                    via,
                    target,
                    rights,
                },
                Arguments::Move {
                    via: other_via,
                    target: other_target,
                    rights: other_rights,
                },
            ) => *via == *other_via && *target == *other_target && *rights == *other_rights,
            _ => false,
        }
    }
}

/// Whether the word is this text. The text is short, and is known where this is compiled.
#[inline(always)]
pub fn is_word(word: &[u8], text: &[u8]) -> bool
    ensures { result ≡ bytes_eq word.now text.now }
{
    if word.len() != text.len() {
        return false;
    }
    for (at, byte) in text.iter().enumerate() {
        if word[at] != *byte {
            return false;
        }
    }
    true
}
