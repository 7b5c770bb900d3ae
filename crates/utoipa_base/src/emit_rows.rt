//! The rows of a member table sent to any sink, in the order of their names, with the extensions of their object among them.
ghost use Rattle.std.specs.Prelude.{◌≡◌, ◌+◌, [], List, ℕ, length, option_map, IfOk, OnOk};
ghost use Rattle.utoipa_base.specs.Docs.{Doc, Docs, no_docs, doc};
ghost use Rattle.utoipa_base.specs.Events.{events};
ghost use Rattle.utoipa_base.specs.Extensions.{extensions_view};
ghost use Rattle.utoipa_base.specs.InOrder.{row_members, IsObjectBy};
ghost use Rattle.utoipa_base.specs.Kinds.{Row, required, optional, or_null, defaulted};
ghost use Rattle.utoipa_base.specs.Pending.{pending_view};
ghost use Rattle.utoipa_base.specs.Rows.{texts, rows_from};
ghost use Rattle.utoipa_base.specs.SentAmong.{SentAmong, row_member};
ghost use Rattle.utoipa_base.specs.Tables.{row};
ghost use Rattle.utoipa_base.specs.Views.{option_of};
ghost use Rattle.utoipa_base.specs.Writing.{write};

use crate::emit::Emit;
use crate::extensions::Extensions;
use crate::omit::Omit;
use crate::pending::PendingExtensions;
use crate::sink::JsonSink;
use crate::table::{DefaultedValue, OptionalValue, OrNullValue, RequiredValue};
use std::alloc::AllocError;

/// Sends a required member, after the extensions that come before it, and answers the extensions that are left. Fails where the sink
/// does.
pub fn emit_required<'a, T: Emit, S: JsonSink>(
    out: &mut S,
    name: &str,
    value: &T,
    pending: PendingExtensions<'a>,
) -> Result<PendingExtensions<'a>, AllocError>
    ensures { IfOk result (λ left. SentAmong S.adds (row_member (row name.now required T.kind) (T.doc value.now))
        (pending_view pending.entry) (pending_view left) out.old out.new) }
{
    let later = pending.emit_key(out, name)?;
    value.emit(out)?;
    Ok(later)
}

/// Sends an optional member, unless it is none, after the extensions that come before it, and answers the extensions that are left.
/// Fails where the sink does.
pub fn emit_optional<'a, T: Emit, S: JsonSink>(
    out: &mut S,
    name: &str,
    value: &Option<T>,
    pending: PendingExtensions<'a>,
) -> Result<PendingExtensions<'a>, AllocError>
    ensures { IfOk result (λ left. SentAmong S.adds
        (row_member (row name.now optional T.kind) (option_of T.doc value.now))
        (pending_view pending.entry) (pending_view left) out.old out.new) }
{
    match value {
        Some(value) => {
            let later = pending.emit_key(out, name)?;
            value.emit(out)?;
            Ok(later)
        }
        None => Ok(pending),
    }
}

/// Sends an optional member, as null where it is none, after the extensions that come before it, and answers the extensions that are
/// left. Fails where the sink does.
pub fn emit_or_null<'a, T: Emit, S: JsonSink>(
    out: &mut S,
    name: &str,
    value: &Option<T>,
    pending: PendingExtensions<'a>,
) -> Result<PendingExtensions<'a>, AllocError>
    ensures { IfOk result (λ left. SentAmong S.adds
        (row_member (row name.now or_null T.kind) (option_of T.doc value.now))
        (pending_view pending.entry) (pending_view left) out.old out.new) }
{
    let later = pending.emit_key(out, name)?;
    emit_option(out, value)?;
    Ok(later)
}

// Sends a value, or null where there is none.
fn emit_option<T: Emit, S: JsonSink>(out: &mut S, value: &Option<T>) -> Result<(), AllocError>
    ensures { OnOk result (S.adds out.old (events (write (option_of T.doc value.now))) out.new) }
{
    match value {
        Some(value) => value.emit(out),
        None => out.null(),
    }
}

/// Sends a defaulted member, unless it is empty, after the extensions that come before it, and answers the extensions that are left.
/// Fails where the sink does.
pub fn emit_defaulted<'a, T: Emit + Omit, S: JsonSink>(
    out: &mut S,
    name: &str,
    value: &T,
    pending: PendingExtensions<'a>,
) -> Result<PendingExtensions<'a>, AllocError>
    ensures { IfOk result (λ left. SentAmong S.adds (row_member (row name.now defaulted T.kind) (T.doc value.now))
        (pending_view pending.entry) (pending_view left) out.old out.new) }
{
    if value.is_omitted() {
        return Ok(pending);
    }
    let later = pending.emit_key(out, name)?;
    value.emit(out)?;
    Ok(later)
}

/// What is sent of one row of a member table. The type tells the row's mark and kind; the name is given.
pub trait EmitRow {
    ghost line: { List ℕ → Row };

    ghost doc: { Self → Doc };

    /// Sends the row's member, unless it is left out, after the extensions that come before it. Answers the extensions that are
    /// left. Fails where the sink does.
    fn emit<'a, S: JsonSink>(
        &self,
        out: &mut S,
        name: &str,
        pending: PendingExtensions<'a>,
    ) -> Result<PendingExtensions<'a>, AllocError>
        ensures { IfOk result (λ left. SentAmong S.adds (row_member (line name.now) (doc self.now))
            (pending_view pending.entry) (pending_view left) out.old out.new) };
}

impl<'v, T: Emit> EmitRow for RequiredValue<'v, T> {
    ghost line = { λ name. row name required T.kind };

    ghost doc = { λ v. T.doc v.0.now };

    fn emit<'a, S: JsonSink>(
        &self,
        out: &mut S,
        name: &str,
        pending: PendingExtensions<'a>,
    ) -> Result<PendingExtensions<'a>, AllocError> {
        emit_required(out, name, self.0, pending)
    }
}

impl<'v, T: Emit> EmitRow for OptionalValue<'v, T> {
    ghost line = { λ name. row name optional T.kind };

    ghost doc = { λ v. option_of T.doc v.0.now };

    fn emit<'a, S: JsonSink>(
        &self,
        out: &mut S,
        name: &str,
        pending: PendingExtensions<'a>,
    ) -> Result<PendingExtensions<'a>, AllocError> {
        emit_optional(out, name, self.0, pending)
    }
}

impl<'v, T: Emit> EmitRow for OrNullValue<'v, T> {
    ghost line = { λ name. row name or_null T.kind };

    ghost doc = { λ v. option_of T.doc v.0.now };

    fn emit<'a, S: JsonSink>(
        &self,
        out: &mut S,
        name: &str,
        pending: PendingExtensions<'a>,
    ) -> Result<PendingExtensions<'a>, AllocError> {
        emit_or_null(out, name, self.0, pending)
    }
}

impl<'v, T: Emit + Omit> EmitRow for DefaultedValue<'v, T> {
    ghost line = { λ name. row name defaulted T.kind };

    ghost doc = { λ v. T.doc v.0.now };

    fn emit<'a, S: JsonSink>(
        &self,
        out: &mut S,
        name: &str,
        pending: PendingExtensions<'a>,
    ) -> Result<PendingExtensions<'a>, AllocError> {
        emit_defaulted(out, name, self.0, pending)
    }
}

/// What is sent of the rows of a member table: nested pairs of [`EmitRow`]s that end in `()`.
pub trait EmitRows {
    ghost count: { ℕ };

    ghost rows: { List (List ℕ) → List Row };

    ghost docs: { Self → Docs };

    /// Sends the rows' members that are not left out, by their names, which have to be in their order: each after the
    /// extensions that come before it. Answers the extensions that are left. Fails where the sink does.
    fn emit<'a, S: JsonSink>(
        &self,
        out: &mut S,
        names: &[&str],
        pending: PendingExtensions<'a>,
    ) -> Result<PendingExtensions<'a>, AllocError>
        requires { length names.now ≡ count }
        ensures { IfOk result (λ left. SentAmong S.adds (row_members (docs self.now) (rows (texts names.now)))
            (pending_view pending.entry) (pending_view left) out.old out.new) };
}

impl EmitRows for () {
    ghost count = { 0 };

    ghost rows = { λ _. [] };

    ghost docs = { λ _. no_docs };

    fn emit<'a, S: JsonSink>(
        &self,
        _out: &mut S,
        _names: &[&str],
        pending: PendingExtensions<'a>,
    ) -> Result<PendingExtensions<'a>, AllocError> {
        Ok(pending)
    }
}

impl<H: EmitRow, R: EmitRows> EmitRows for (H, R) {
    ghost count = { R.count + 1 };

    ghost rows = { rows_from H.line R.rows };

    ghost docs = { λ v. doc (H.doc v.0) (R.docs v.1) };

    fn emit<'a, S: JsonSink>(
        &self,
        out: &mut S,
        names: &[&str],
        pending: PendingExtensions<'a>,
    ) -> Result<PendingExtensions<'a>, AllocError> {
        let later = self.0.emit(out, names[0], pending)?;
        self.1.emit(out, &names[1..], later)
    }
}

/// Sends an object: the rows of its table, which are given in the order of their names, with its extensions among them. Fails
/// where the sink does; then some of it may have been sent.
pub fn emit_table<R: EmitRows, S: JsonSink>(
    out: &mut S,
    names: &[&str],
    values: &R,
    extensions: &Option<Extensions>,
) -> Result<(), AllocError>
    requires { length names.now ≡ R.count }
    ensures { (d : Doc)
        → IsObjectBy d (R.docs values.now) (R.rows (texts names.now)) (option_map extensions_view extensions.now)
        → OnOk result (S.adds out.old (events (write d)) out.new) }
{
    out.begin_object()?;
    let later = values.emit(out, names, PendingExtensions::of(extensions))?;
    later.emit_end(out)
}
