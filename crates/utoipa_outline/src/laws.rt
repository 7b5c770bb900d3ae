//! The law of the lines of operations.
ghost use Rattle.std.specs.Prelude.{List, length};
ghost use Rattle.std.specs.List.{flat_map};
ghost use Rattle.utoipa_outline.specs.Lines.{AreRows, operation_line};
ghost use Rattle.utoipa_outline.specs.Operations.{Operation};

/// The lines of some operations are as many as those, each of four texts with a tab between two of them, and nothing else is hidden in them.
pub fn operations_are_rows()
    ensures { (operations : List Operation) → AreRows (length operations) 4 (flat_map operation_line operations) }
{}
