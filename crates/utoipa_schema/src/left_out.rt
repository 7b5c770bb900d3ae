//! Parts of a member table that are passed over at once where all of their members are left out, as most parts of a schema are.
ghost use Rattle.std.specs.Prelude.{◌≡◌, List, ℕ, length, true, IfOk};
ghost use Rattle.serde_json.specs.Data.{no_members};
ghost use Rattle.utoipa_base.specs.InOrder.{row_members};
ghost use Rattle.utoipa_base.specs.Pending.{pending_view};
ghost use Rattle.utoipa_base.specs.Rows.{texts};
ghost use Rattle.utoipa_base.specs.SentAmong.{SentAmong};
ghost use Rattle.utoipa_base.specs.Writing.{left_out};

use std::alloc::AllocError;
use utoipa_base::table::{DefaultedValue, OptionalValue};
use utoipa_base::{Emit, EmitRow, EmitRows, JsonSink, Omit, PendingExtensions};

/// A row that tells whether its member is left out.
pub(crate) trait LeaveOut: EmitRow {
    /// Whether the member is left out where its object is sent.
    fn is_left_out(&self) -> bool
        ensures { (name : List ℕ) → left_out (Self.line name).mark (Self.doc self.now) ≡ result };
}

impl<'v, T: Emit> LeaveOut for OptionalValue<'v, T> {
    fn is_left_out(&self) -> bool {
        self.0.is_none()
    }
}

impl<'v, T: Emit + Omit> LeaveOut for DefaultedValue<'v, T> {
    fn is_left_out(&self) -> bool {
        self.0.is_omitted()
    }
}

/// Rows that tell whether the members of all are left out.
pub(crate) trait LeaveOutRows: EmitRows {
    /// Whether no member is sent where their object is sent.
    fn are_left_out(&self) -> bool
        ensures { result ≡ true → (names : List (List ℕ))
            → row_members (Self.docs self.now) (Self.rows names) ≡ no_members };
}

impl LeaveOutRows for () {
    fn are_left_out(&self) -> bool {
        true
    }
}

impl<H: LeaveOut, R: LeaveOutRows> LeaveOutRows for (H, R) {
    fn are_left_out(&self) -> bool {
        if !self.0.is_left_out() {
            return false;
        }
        self.1.are_left_out()
    }
}

/// Sends the members of a part as [`EmitRows::emit`] does, and asks none of its rows where all are left out. Fails where the sink does.
pub(crate) fn emit_part<'a, R: LeaveOutRows, S: JsonSink>(
    rows: &R,
    out: &mut S,
    names: &[&str],
    pending: PendingExtensions<'a>,
) -> Result<PendingExtensions<'a>, AllocError>
    requires { length names.now ≡ R.count }
    ensures { IfOk result (λ left. SentAmong S.adds (row_members (R.docs rows.now) (R.rows (texts names.now)))
        (pending_view pending.entry) (pending_view left) out.old out.new) }
{
    if rows.are_left_out() {
        return Ok(pending);
    }
    rows.emit(out, names, pending)
}
