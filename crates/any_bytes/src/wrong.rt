use std::alloc::AllocError;

/// What is wrong with what was written of a script.
#[derive(Clone, Copy, Debug)]
pub(crate) enum Wrong {
    /// The text does not end in a newline.
    NoNewline,
    /// Something stands where a decimal number has to.
    NoNumber,
    /// A line has more than five numbers.
    LineTooLong,
    /// The script has a command more than there are lines for.
    LineMissing,
    /// A line stands behind the last one that is due.
    LineTooMany,
    /// A line does not begin with the number of its command.
    CommandNumber,
    /// A line has too many or too few numbers for what it tells.
    LineForm,
    /// A command is accepted that had to be refused with this number.
    Accepted { due: u32 },
    /// A command is refused with a number and a detail that cannot be.
    Refused { number: u32, detail: u32 },
    /// A solve offers nothing, or another command offers something.
    Offer,
    /// The row of a link does not name it.
    RowName,
    /// A gap is not one of the eight, or below the floor.
    RowGap,
    /// An MTU is not from 1 to 1,471.
    RowMtu,
    /// The rows do not reserve what is told, or have other bytes.
    Totals,
    /// The rows are not within the share or the rate.
    NotWithin,
    /// There are fewer visits than links, or more than are allowed.
    Visits,
    /// A run tells other lines step by step than as a whole.
    StepsDiffer,
    /// Memory is at its end.
    Memory,
}

impl From<AllocError> for Wrong {
    fn from(_error: AllocError) -> Wrong {
        Wrong::Memory
    }
}
