//! What can be asked for.
ghost use Rattle.std.specs.Prelude.{◌≡◌};
ghost use Rattle.std.specs.Result.{result_ok};
ghost use Rattle.cases.specs.Questions.{operation_of};

#[derive(Clone, Copy, PartialEq, Eq, Debug)]
pub enum Operation {
    Times,
}

/// No operation has this name. As `UnknownName` of the kinds: a type of its own says what was not known.
#[derive(Clone, Copy, PartialEq, Eq, Debug)]
pub struct UnknownOperation;

// The operation with this name.
impl TryFrom<&[u8]> for Operation {
    type Error = UnknownOperation;

    ghost try_from_gives = { λ name r. result_ok r ≡ operation_of name.now };

    fn try_from(name: &[u8]) -> Result<Operation, UnknownOperation> {
        match name {
            b"times" => Ok(Operation::Times),
            _ => Err(UnknownOperation),
        }
    }
}
