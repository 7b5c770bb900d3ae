//! What the JSON of a value is sent to, one event after another: a writer of text, a builder of trees.
ghost use Rattle.std.specs.Prelude.{List, [], ◌∷◌, ◌++◌, OnOk};
ghost use Rattle.serde_json.specs.Data.{unsigned};
ghost use Rattle.serde_json.specs.Find.{of_integer};
ghost use Rattle.serde_json.specs.View.{number_view};
ghost use Rattle.utoipa_base.specs.Events.{Event, null, boolean, number, string, begin_array, end_array, begin_object, end_object, key};
ghost use Rattle.utoipa_base.specs.Sent.{AddsTokens, adds_none, adds_both};

use crate::print::print_number;
use json::Writer;
use serde_json::Number;
use std::alloc::AllocError;

/// What JSON is sent to. Each method fails where memory runs out, and where what is sent is no part of a tree at this point.
pub trait JsonSink {
    // The events were added to what was there.
    ghost adds: { Self → List Event → Self → Type 0 };

    /// Takes null.
    fn null(&mut self) -> Result<(), AllocError>
        ensures { OnOk result (adds self.old (null ∷ []) self.new) };

    /// Takes true or false.
    fn boolean(&mut self, flag: bool) -> Result<(), AllocError>
        ensures { OnOk result (adds self.old (boolean flag ∷ []) self.new) };

    /// Takes a whole number that is not negative.
    fn u64(&mut self, whole: u64) -> Result<(), AllocError>
        ensures { OnOk result (adds self.old (number (unsigned whole) ∷ []) self.new) };

    /// Takes a whole number.
    fn i64(&mut self, whole: i64) -> Result<(), AllocError>
        ensures { OnOk result (adds self.old (number (of_integer whole) ∷ []) self.new) };

    /// Takes a number of a tree, which may be a fraction.
    fn number(&mut self, value: &Number) -> Result<(), AllocError>
        ensures { OnOk result (adds self.old (number (number_view value.now) ∷ []) self.new) };

    /// Takes a text.
    fn string(&mut self, text: &str) -> Result<(), AllocError>
        ensures { OnOk result (adds self.old (string text.now ∷ []) self.new) };

    /// Begins an array, whose items are sent next.
    fn begin_array(&mut self) -> Result<(), AllocError>
        ensures { OnOk result (adds self.old (begin_array ∷ []) self.new) };

    /// Ends the array that was begun last.
    fn end_array(&mut self) -> Result<(), AllocError>
        ensures { OnOk result (adds self.old (end_array ∷ []) self.new) };

    /// Begins an object, whose members are sent next, each by its name and its value.
    fn begin_object(&mut self) -> Result<(), AllocError>
        ensures { OnOk result (adds self.old (begin_object ∷ []) self.new) };

    /// Ends the object that was begun last.
    fn end_object(&mut self) -> Result<(), AllocError>
        ensures { OnOk result (adds self.old (end_object ∷ []) self.new) };

    /// Takes the name of a member, whose value is sent next.
    fn key(&mut self, name: &str) -> Result<(), AllocError>
        ensures { OnOk result (adds self.old (key name.now ∷ []) self.new) };

    // Nothing was sent.
    ghost none: { (sink : Self) → adds sink [] sink };

    // Events, and others after them.
    ghost both: { (a b c : Self) (es fs : List Event) → adds a es b → adds b fs c → adds a (es ++ fs) c };
}

/// The text of what is sent.
#[tactic(auto, using(crate::proofs::SentTokens::by_events))]
impl JsonSink for Writer {
    ghost adds = { AddsTokens };

    #[inline]
    fn null(&mut self) -> Result<(), AllocError> {
        Writer::null(self)
    }

    #[inline]
    fn boolean(&mut self, flag: bool) -> Result<(), AllocError> {
        Writer::boolean(self, flag)
    }

    #[inline]
    fn u64(&mut self, whole: u64) -> Result<(), AllocError> {
        Writer::u64(self, whole)
    }

    #[inline]
    fn i64(&mut self, whole: i64) -> Result<(), AllocError> {
        Writer::i64(self, whole)
    }

    #[inline]
    fn number(&mut self, value: &Number) -> Result<(), AllocError> {
        print_number(value, self)
    }

    #[inline]
    fn string(&mut self, text: &str) -> Result<(), AllocError> {
        Writer::string(self, text)
    }

    #[inline]
    fn begin_array(&mut self) -> Result<(), AllocError> {
        Writer::begin_array(self)
    }

    #[inline]
    fn end_array(&mut self) -> Result<(), AllocError> {
        Writer::end_array(self)
    }

    #[inline]
    fn begin_object(&mut self) -> Result<(), AllocError> {
        Writer::begin_object(self)
    }

    #[inline]
    fn end_object(&mut self) -> Result<(), AllocError> {
        Writer::end_object(self)
    }

    #[inline]
    fn key(&mut self, name: &str) -> Result<(), AllocError> {
        Writer::key(self, name)
    }

    ghost none = { adds_none };

    ghost both = { adds_both };
}
