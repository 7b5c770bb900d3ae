//! Extensions sent among the other members of their object, in the order of names.
ghost use Rattle.std.specs.Prelude.{◌≡◌, option_map, IfOk, OnOk};
ghost use Rattle.serde_json.specs.Data.{no_members};
ghost use Rattle.serde_json.specs.View.{members_view};
ghost use Rattle.utoipa_base.specs.Events.{members_events};
ghost use Rattle.utoipa_base.specs.Extensions.{extensions_view, members_or_none};
ghost use Rattle.utoipa_base.specs.InOrder.{first_member, later_members, starts_before, starts_with_name, names_before, names_after};
ghost use Rattle.utoipa_base.specs.Pending.{pending_view};
ghost use Rattle.utoipa_base.specs.SentAmong.{NameSent, ObjectEnded};

use crate::emit::emit_tree;
use crate::extensions::Extensions;
use crate::sink::JsonSink;
use serde_json::Value;
use std::alloc::AllocError;
use std::collections::btree_map::Iter;

/// The extensions of an object that are still to be sent, in the order of their names.
#[derive(Drop)]
pub struct PendingExtensions<'a> {
    pub(crate) next: Option<NextExtension<'a>>,
}

/// The first of the extensions that are still to be sent, and those after it.
#[derive(Drop)]
pub(crate) struct NextExtension<'a> {
    pub(crate) name: &'a String,
    pub(crate) value: &'a Value,
    pub(crate) later: Iter<'a, String, Value>,
}

impl<'a> PendingExtensions<'a> {
    /// All extensions of an object.
    pub fn of(extensions: &'a Option<Extensions>) -> PendingExtensions<'a>
        ensures { pending_view result ≡ members_or_none (option_map extensions_view extensions.now) }
    {
        match extensions {
            Some(extensions) => PendingExtensions::from_iter(extensions.as_map().iter()),
            None => PendingExtensions { next: None },
        }
    }

    fn from_iter(mut later: Iter<'a, String, Value>) -> PendingExtensions<'a>
        ensures { pending_view result ≡ members_view later.entry }
    {
        match later.next() {
            Some((name, value)) => PendingExtensions {
                next: Some(NextExtension { name, value, later }),
            },
            None => PendingExtensions { next: None },
        }
    }

    // Whether the next extension comes before a name.
    fn begins_before(&self, name: &str) -> bool
        ensures { result ≡ starts_before name.now (pending_view self.now) }
    {
        match &self.next {
            Some(next) => name > next.name.as_str(),
            None => false,
        }
    }

    /// Sends the name of a member, after the extensions that come before it, and answers those that come after it: one of the
    /// same name is passed over, since the object's own member wins. Fails where the sink does.
    pub fn emit_key<S: JsonSink>(
        self,
        out: &mut S,
        name: &str,
    ) -> Result<PendingExtensions<'a>, AllocError>
        ensures { IfOk result (λ left. NameSent S.adds name.now (pending_view self.entry)
            (pending_view left) out.old out.new) }
    {
        let pending = self.emit_before(out, name)?;
        out.key(name)?;
        Ok(pending.without(name))
    }

    /// Sends the extensions that are left, and the end of the object. Fails where the sink does.
    pub fn emit_end<S: JsonSink>(self, out: &mut S) -> Result<(), AllocError>
        ensures { OnOk result (ObjectEnded S.adds (pending_view self.entry) out.old out.new) }
    {
        let mut pending = self;
        while pending.next.is_some() {
            pending = pending.emit_next(out)?;
        }
        out.end_object()
    }

    // Sends the extensions that come before a name.
    fn emit_before<S: JsonSink>(
        self,
        out: &mut S,
        name: &str,
    ) -> Result<PendingExtensions<'a>, AllocError>
        ensures { IfOk result (λ left. (names_before name.now (pending_view left) ≡ no_members)
            × (names_after name.now (pending_view left) ≡ names_after name.now (pending_view self.entry))
            × S.adds out.old (members_events (names_before name.now (pending_view self.entry))) out.new) }
    {
        let mut pending = self;
        while pending.begins_before(name) {
            pending = pending.emit_next(out)?;
        }
        Ok(pending)
    }

    // Sends the next extension, if there is one.
    fn emit_next<S: JsonSink>(self, out: &mut S) -> Result<PendingExtensions<'a>, AllocError>
        ensures { IfOk result (λ left. (pending_view left ≡ later_members (pending_view self.entry))
            × S.adds out.old (members_events (first_member (pending_view self.entry))) out.new) }
    {
        let Some(next) = self.next else {
            return Ok(PendingExtensions { next: None });
        };
        out.key(next.name.as_str())?;
        emit_tree(next.value, out)?;
        Ok(PendingExtensions::from_iter(next.later))
    }

    // Whether the next extension has a name.
    fn begins_with(&self, name: &str) -> bool
        ensures { result ≡ starts_with_name name.now (pending_view self.now) }
    {
        match &self.next {
            Some(next) => name == next.name.as_str(),
            None => false,
        }
    }

    // The extensions after the next one.
    fn later(self) -> PendingExtensions<'a>
        ensures { pending_view result ≡ later_members (pending_view self.entry) }
    {
        let Some(next) = self.next else {
            return PendingExtensions { next: None };
        };
        PendingExtensions::from_iter(next.later)
    }

    // The extensions without the next one, if it has this name.
    fn without(self, name: &str) -> PendingExtensions<'a>
        ensures { names_before name.now (pending_view self.entry) ≡ no_members
            → pending_view result ≡ names_after name.now (pending_view self.entry) }
    {
        if self.begins_with(name) {
            self.later()
        } else {
            self
        }
    }
}
