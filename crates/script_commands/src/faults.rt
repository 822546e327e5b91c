//! What is wrong with a line that spells no command, in words for people.
ghost use Rattle.std.specs.Prelude.{◌≡◌, ◌↔◌, IfOk, IsSome};
ghost use Rattle.script_commands.specs.Commands.{Syntax, asked};

use crate::command::kind_named;
use crate::fields::{is_blank, is_field, is_plain_line, split_field};
use crate::line::{Asked, read_line};
use crate::number::{number, pin_value};
use std::alloc::{AllocError, Global};
use std::fmt;
use std::fmt::Write as _;

/// What a field may be.
#[derive(Clone, Copy, Debug, PartialEq, Eq)]
enum Rule {
    /// Any text.
    Any,
    /// A number from one to another.
    Within(u32, u32),
    /// The value of an export pin.
    PinValue,
    /// The kind of hits, which can be left out.
    KindName,
    /// Any number of paths.
    Paths,
}

impl Rule {
    fn allows(&self, field: &[u8]) -> bool {
        match *self {
            Rule::Any | Rule::Paths => true,
            Rule::Within(low, high) => number(field, low, high).is_some(),
            Rule::PinValue => pin_value(field).is_some(),
            Rule::KindName => kind_named(field).is_some(),
        }
    }
}

impl fmt::Display for Rule {
    fn fmt<W: fmt::Write>(&self, f: &mut fmt::Formatter<W>) -> fmt::Result {
        match *self {
            Rule::Any | Rule::Paths => f.write_str("any text"),
            Rule::Within(low, high) => write!(f, "{low} to {high}"),
            Rule::PinValue => f.write_str("-1, or 0 to 2147483647"),
            Rule::KindName => f.write_str("r or w"),
        }
    }
}

/// A field after a command's word.
#[derive(Clone, Copy, Debug, PartialEq, Eq)]
struct Field {
    name: &'static str,
    rule: Rule,
}

impl Field {
    fn can_be_left_out(&self) -> bool {
        matches!(self.rule, Rule::KindName | Rule::Paths)
    }
}

const PATH: Field = Field {
    name: "PATH",
    rule: Rule::Any,
};

const ACTIVE: Field = Field {
    name: "N",
    rule: Rule::Within(1, 64),
};

const MASK: Field = Field {
    name: "MASK",
    rule: Rule::Any,
};

const INODES: Field = Field {
    name: "INODES",
    rule: Rule::Within(0, u32::MAX),
};

const PIN: Field = Field {
    name: "RANK",
    rule: Rule::PinValue,
};

const HITS: Field = Field {
    name: "HITS",
    rule: Rule::Within(1, 1_000_000),
};

const KIND: Field = Field {
    name: "KIND",
    rule: Rule::KindName,
};

const READ: Field = Field {
    name: "READ",
    rule: Rule::Within(0, 255),
};

const WRITE: Field = Field {
    name: "WRITE",
    rule: Rule::Within(0, 255),
};

const RANK: Field = Field {
    name: "RANK",
    rule: Rule::Within(0, 63),
};

const ROUND: Field = Field {
    name: "ROUND",
    rule: Rule::Within(1, 8),
};

const FROM: Field = Field {
    name: "FROM",
    rule: Rule::Within(0, 63),
};

const TO: Field = Field {
    name: "TO",
    rule: Rule::Within(0, 63),
};

const PATHS: Field = Field {
    name: "PATH ..",
    rule: Rule::Paths,
};

const MESSAGE: Field = Field {
    name: "MESSAGE",
    rule: Rule::Within(0, u32::MAX),
};

const EXPORT: Field = Field {
    name: "EXPORT",
    rule: Rule::Within(0, u32::MAX),
};

const TICKET: Field = Field {
    name: "TICKET",
    rule: Rule::Within(0, u32::MAX),
};

/// What a line of a command has.
#[derive(Clone, Copy, Debug, PartialEq, Eq)]
pub struct Form {
    word: &'static str,
    /// The fields after the word.
    fields: &'static [Field],
}

const FORMS: [Form; 27] = [
    Form {
        word: "ranks",
        fields: &[ACTIVE],
    },
    Form {
        word: "mask",
        fields: &[MASK],
    },
    Form {
        word: "dir",
        fields: &[PATH, INODES],
    },
    Form {
        word: "rmdir",
        fields: &[PATH],
    },
    Form {
        word: "pin",
        fields: &[PATH, PIN],
    },
    Form {
        word: "load",
        fields: &[PATH, HITS, KIND],
    },
    Form {
        word: "weight",
        fields: &[READ, WRITE],
    },
    Form {
        word: "go",
        fields: &[],
    },
    Form {
        word: "tick",
        fields: &[],
    },
    Form {
        word: "cost",
        fields: &[PATHS],
    },
    Form {
        word: "plan",
        fields: &[],
    },
    Form {
        word: "move",
        fields: &[],
    },
    Form {
        word: "traffic",
        fields: &[],
    },
    Form {
        word: "stop",
        fields: &[RANK],
    },
    Form {
        word: "restart",
        fields: &[RANK],
    },
    Form {
        word: "fail",
        fields: &[RANK, ROUND],
    },
    Form {
        word: "stat",
        fields: &[],
    },
    Form {
        word: "start",
        fields: &[FROM, TO, PATHS],
    },
    Form {
        word: "deliver",
        fields: &[MESSAGE],
    },
    Form {
        word: "froze",
        fields: &[EXPORT],
    },
    Form {
        word: "notify",
        fields: &[EXPORT],
    },
    Form {
        word: "abort",
        fields: &[EXPORT],
    },
    Form {
        word: "ask",
        fields: &[EXPORT],
    },
    Form {
        word: "begin",
        fields: &[RANK, PATH],
    },
    Form {
        word: "end",
        fields: &[TICKET],
    },
    Form {
        word: "export",
        fields: &[EXPORT],
    },
    Form {
        word: "journal",
        fields: &[RANK],
    },
];

impl Form {
    // How many fields a line has at least, with the word.
    fn least_count(&self) -> usize {
        let mut least = 1usize;
        for field in self.fields {
            if !field.can_be_left_out() {
                least = least.saturating_add(1);
            }
        }
        least
    }
}

impl fmt::Display for Form {
    fn fmt<W: fmt::Write>(&self, f: &mut fmt::Formatter<W>) -> fmt::Result {
        f.write_str(self.word)?;
        for field in self.fields {
            let name = field.name;
            if field.can_be_left_out() {
                write!(f, " [{name}]")?;
            } else {
                write!(f, " {name}")?;
            }
        }
        Ok(())
    }
}

fn form_of(word: &[u8]) -> Option<Form> {
    for form in FORMS {
        if form.word.as_bytes() == word {
            return Some(form);
        }
    }
    None
}

/// The form of the command whose word a line begins with, if there is one.
pub fn form_of_line(line: &[u8]) -> Option<Form> {
    let (word, _) = split_field(line)?;
    form_of(word)
}

/// Why a line spells no command. It prints as a text for people, without a newline.
#[derive(Clone, Copy, Debug, PartialEq, Eq)]
pub enum LineFault<'a> {
    /// This field has a byte that isn't seen in print.
    NotPlain(&'a [u8]),
    /// This word is no command's.
    Unknown(&'a [u8]),
    /// Of a line of this form only so many fields are there, the word included.
    Missing(Form, usize),
    /// A line of this form has no place for this field.
    Surplus(Form, &'a [u8]),
    /// The form doesn't allow what is in the place of this field.
    Refused(Form, RefusedField<'a>),
}

/// A field, and what is in its place.
#[derive(Clone, Copy, Debug, PartialEq, Eq)]
pub struct RefusedField<'a> {
    field: Field,
    found: &'a [u8],
}

// The fault of a line that spells no command.
fn fault_of(line: &[u8]) -> LineFault<'_> {
    let mut word: Option<&[u8]> = None;
    let mut count = 0usize;
    for field in line
        .split(|byte| is_blank(*byte))
        .filter(|part| is_field(part))
    {
        if !is_plain_line(field) {
            return LineFault::NotPlain(field);
        }
        word = word.or(Some(field));
        count = count.saturating_add(1);
    }
    let word = word.unwrap_or(b"");
    let Some(form) = form_of(word) else {
        return LineFault::Unknown(word);
    };
    if count < form.least_count() {
        return LineFault::Missing(form, count);
    }
    match first_refused(&form, line) {
        Some(refused) => LineFault::Refused(form, refused),
        None => LineFault::Surplus(form, first_surplus(&form, line)),
    }
}

// The first field for which a form has no place.
fn first_surplus<'a>(form: &Form, line: &'a [u8]) -> &'a [u8] {
    line.split(|byte| is_blank(*byte))
        .filter(|part| is_field(part))
        .nth(form.fields.len().saturating_add(1))
        .unwrap_or(b"")
}

// The first field that a form doesn't allow.
fn first_refused<'a>(form: &Form, line: &'a [u8]) -> Option<RefusedField<'a>> {
    let found = line
        .split(|byte| is_blank(*byte))
        .filter(|part| is_field(part));
    for (field, found) in form.fields.iter().zip(found.skip(1)) {
        if !field.rule.allows(found) {
            return Some(RefusedField {
                field: *field,
                found,
            });
        }
    }
    None
}

/// Why a line spells no command, where it is none and isn't skipped. Only memory can be refused.
pub fn explain(alloc: Global, line: &[u8]) -> Result<Option<LineFault<'_>>, AllocError>
    ensures { IfOk result (λ fault. IsSome fault ↔ (asked line.now ≡ Syntax)) }
{
    match read_line(alloc, line)? {
        Asked::Syntax => Ok(Some(fault_of(line))),
        _ => Ok(None),
    }
}

/// The first bytes of a field, of which those that aren't seen in print are written as numbers.
#[derive(Clone, Copy)]
struct Quoted<'a> {
    field: &'a [u8],
}

const QUOTED_LIMIT: usize = 40;

impl fmt::Display for Quoted<'_> {
    fn fmt<W: fmt::Write>(&self, f: &mut fmt::Formatter<W>) -> fmt::Result {
        for byte in self.field.iter().take(QUOTED_LIMIT) {
            write_byte(f, *byte)?;
        }
        if self.field.len() > QUOTED_LIMIT {
            f.write_str("..")?;
        }
        Ok(())
    }
}

fn write_byte<W: fmt::Write>(f: &mut fmt::Formatter<W>, byte: u8) -> fmt::Result {
    if byte > 0x20 && byte < 0x7f {
        f.write_char(char::from(byte))
    } else {
        write!(f, "\\x{byte:02x}")
    }
}

impl fmt::Display for LineFault<'_> {
    fn fmt<W: fmt::Write>(&self, f: &mut fmt::Formatter<W>) -> fmt::Result {
        match *self {
            LineFault::NotPlain(field) => {
                let field = Quoted { field };
                write!(f, "\"{field}\" has a byte that is not printable ASCII")
            }
            LineFault::Unknown(field) => {
                let field = Quoted { field };
                write!(f, "unknown command \"{field}\"")
            }
            LineFault::Missing(form, count) => write_missing(f, &form, count),
            LineFault::Surplus(form, field) => {
                let field = Quoted { field };
                write!(f, "{form}: unexpected \"{field}\"")
            }
            LineFault::Refused(form, refused) => {
                let (name, rule) = (refused.field.name, refused.field.rule);
                let field = Quoted {
                    field: refused.found,
                };
                write!(f, "{form}: {name} is {field}, and must be {rule}")
            }
        }
    }
}

// Names the fields that can't be left out, and come after those that are there.
fn write_missing<W: fmt::Write>(
    f: &mut fmt::Formatter<W>,
    form: &Form,
    count: usize,
) -> fmt::Result {
    write!(f, "{form}: ")?;
    let mut missing = 0usize;
    for field in form.fields.iter().skip(count.saturating_sub(1)) {
        if !field.can_be_left_out() {
            let joint = if missing == 0 { "" } else { " and " };
            f.write_str(joint)?;
            f.write_str(field.name)?;
            missing = missing.saturating_add(1);
        }
    }
    let verb = if missing == 1 { "is" } else { "are" };
    write!(f, " {verb} missing")
}
