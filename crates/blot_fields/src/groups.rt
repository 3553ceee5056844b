//! Looks over the groups of an allocation.
ghost use Rattle.std.specs.Prelude.{◌≡◌, ◌≤◌, length};
ghost use Rattle.blot_fields.specs.declared.sound.TheConstants.{FIELDS_MAX};
ghost use Rattle.blot_fields.specs.Groups.{behind};
ghost use Rattle.blot_fields.specs.Looks.{IsLook};

use crate::sound::SoundFields;
use blot_tag::Field;

/// What a walk over the fields has seen of both groups.
#[derive(Clone, Copy, Default)]
pub(crate) struct Look {
    // How many ExecIDs there are, and how many of them after NoExecs.
    executions: u64,
    executions_behind: u64,
    // How many AllocAccounts there are.
    lines: u64,
    // Whether a field of a line stands before the first line after NoAllocs.
    has_stray: bool,
    // Whether a line ended that has no AllocPrice.
    some_lacks_price: bool,
    // Whether NoExecs was passed, and NoAllocs.
    is_behind_executions: bool,
    is_behind_lines: bool,
    // Whether a line was begun after NoAllocs, and whether the open one has no AllocPrice so far.
    is_line_begun: bool,
    last_lacks_price: bool,
}

impl Look {
    ghost use Rattle.std.specs.Prelude.{◌==◌, ◌&&◌, ◌||◌, not};
    ghost use Rattle.blot_tag.specs.Views.{tag_value};
    ghost use Rattle.blot_fields.specs.Looks.{look_with};

    /// Whether the ExecIDs are as many as NoExecs says, and all of them stand after it.
    pub(crate) fn are_executions(self, count: u64) -> bool
        ensures { result ≡ ((self.executions == count) && (self.executions_behind == count)) }
    {
        self.executions == count && self.executions_behind == count
    }

    /// Whether the lines are as many as NoAllocs says, and no field of a line stands before the first line
    /// after NoAllocs.
    pub(crate) fn are_lines(self, count: u64) -> bool
        ensures { result ≡ ((self.lines == count) && not self.has_stray) }
    {
        self.lines == count && !self.has_stray
    }

    /// Whether some line has no AllocPrice.
    pub(crate) fn some_line_lacks_price(self) -> bool
        ensures { result ≡ (self.some_lacks_price || self.last_lacks_price) }
    {
        self.some_lacks_price || self.last_lacks_price
    }

    // What is seen with one field more.
    fn with(self, field: Field) -> Look
        requires executions { self.executions ≤ FIELDS_MAX }
        requires executions_behind { self.executions_behind ≤ FIELDS_MAX }
        requires lines { self.lines ≤ FIELDS_MAX }
        ensures { result ≡ look_with self (tag_value field.entry) }
    {
        match field.tag {
            17 => Look {
                executions: self.executions + 1,
                executions_behind: self.executions_behind + u64::from(self.is_behind_executions),
                ..self
            },
            124 => Look {
                is_behind_executions: true,
                ..self
            },
            78 => Look {
                is_behind_lines: true,
                ..self
            },
            79 => Look {
                lines: self.lines + 1,
                has_stray: self.has_stray || !(self.is_line_begun || self.is_behind_lines),
                some_lacks_price: self.some_lacks_price || self.last_lacks_price,
                is_line_begun: self.is_line_begun || self.is_behind_lines,
                last_lacks_price: self.is_behind_lines,
                ..self
            },
            80 => Look {
                has_stray: self.has_stray || !self.is_line_begun,
                ..self
            },
            366 => Look {
                has_stray: self.has_stray || !self.is_line_begun,
                last_lacks_price: false,
                ..self
            },
            _ => self,
        }
    }
}

/// Looks over the fields of an allocation.
pub(crate) fn look_over(fields: SoundFields) -> Look
    requires { length fields ≤ FIELDS_MAX }
    ensures { IsLook result fields.entry }
{
    let mut look = Look::default();
    for field in fields {
        look = look.with(field);
    }
    look
}

/// The fields after the first with a tag.
pub(crate) fn behind<'a>(tag: u32, fields: SoundFields<'a>) -> SoundFields<'a>
    ensures value { result ≡ behind tag fields.entry }
    ensures few { length result ≤ length fields.entry }
{
    let mut rest = fields;
    while let Some(field) = rest.next() {
        if field.tag == tag {
            break;
        }
    }
    rest
}
