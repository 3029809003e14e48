//! What a key's newest message or row tells.
ghost use Rattle.std.specs.Prelude.{Option, Some};
ghost use Rattle.std.specs.Option.{option_map};
ghost use Rattle.stow_tree_model.specs.Op.{op_of};
ghost use Rattle.stow_tree_model.specs.Operations.{NumberedValue, applied, value_in};
ghost use Rattle.stow_tree_model.specs.Value.{IsValue};
ghost use Rattle.stow_read.specs.Found.{lent_of};
ghost use Rattle.stow_read.specs.Glance.{IsToldOf};

use crate::lent_value::LentValue;
use crate::value_head::ValueHead;
use stow_tree_model::message::Message;
use stow_tree_model::op::Op;

/// What a key's newest message or row tells of its value.
#[derive(Clone, Copy)]
pub enum Newest {
    /// There is no value.
    Missing,
    /// The value is whole there: this is told of it.
    Whole(ValueHead),
    /// It is the append of this number, to a value that stands further below.
    Extended(u64),
}

impl Newest {
    /// What a message tells, the newest one.
    pub(crate) fn of_message(message: Message<'_>) -> Newest
        ensures { (before : Option NumberedValue) → IsToldOf
            (applied message.entry.number (Some (op_of message.entry.op)) before) result }
    {
        let number = message.number;
        match message.op {
            Op::Put(value) => Newest::Whole(ValueHead {
                number,
                length: value.len() as u32,
            }),
            Op::Gone => Newest::Missing,
            Op::Append(_) => Newest::Extended(number),
        }
    }

    /// What a leaf's row tells.
    pub(crate) fn of_row(row: Option<LentValue<'_>>) -> Newest
        requires { IsValue (value_in (option_map lent_of row)) }
        ensures { IsToldOf (option_map lent_of row.entry) result }
    {
        match row {
            Some(lent) => Newest::Whole(ValueHead {
                number: lent.number,
                length: lent.value.len() as u32,
            }),
            None => Newest::Missing,
        }
    }
}
