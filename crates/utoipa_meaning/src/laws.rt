//! The laws of what operations mean.
ghost use Rattle.std.specs.Prelude.{◌≡◌, ℕ, List, [], Some, codes, length, slice_get};
ghost use Rattle.serde_json.specs.Data.{Data, array, no_items};
ghost use Rattle.utoipa_check.specs.Shown.{IsOneLine, AreLines};
ghost use Rattle.utoipa_conflicts.specs.IsConflict.{IsOneOf};
ghost use Rattle.utoipa_meaning.specs.Changes.{Change, changed_meanings};
ghost use Rattle.utoipa_meaning.specs.Examples as examples;
ghost use Rattle.utoipa_meaning.specs.Meaning.{effective_security, effective_servers, effective_parameters, listed_parameters, no_security, default_servers};
ghost use Rattle.utoipa_meaning.specs.Operations.{Operation, Standing, first_with, operations, standing_at};
ghost use Rattle.utoipa_meaning.specs.Texts.{change_text, change_lines};
ghost use Rattle.utoipa_meaning.specs.Unchanged.{MeansTheSame};

/// Worked examples of the security that is in effect: it is the document's, or the operation's own, and an empty list removes the document's.
pub fn security_examples()
    ensures inherited { effective_security (examples.secured examples.a_key) examples.nothing ≡ examples.a_key }
    ensures overridden { effective_security (examples.secured examples.a_key) (examples.secured examples.a_token) ≡ examples.a_token }
    ensures removed { effective_security (examples.secured examples.a_key) (examples.secured (array no_items)) ≡ no_security }
    ensures absent { effective_security examples.nothing examples.nothing ≡ no_security }
{}

/// Worked examples of the servers: those of the operation, of the item, of the document, and `/`.
pub fn servers_examples()
    ensures operation { effective_servers (examples.served (examples.server (codes "/a"))) (examples.served (examples.server (codes "/b")))
        (examples.served (examples.server (codes "/c"))) ≡ examples.server (codes "/c") }
    ensures item { effective_servers (examples.served (examples.server (codes "/a"))) (examples.served (examples.server (codes "/b")))
        examples.nothing ≡ examples.server (codes "/b") }
    ensures document { effective_servers (examples.served (examples.server (codes "/a"))) examples.nothing
        examples.nothing ≡ examples.server (codes "/a") }
    ensures default { effective_servers examples.nothing examples.nothing examples.nothing ≡ default_servers }
    ensures empty_document { effective_servers (examples.served (array no_items)) examples.nothing examples.nothing ≡ default_servers }
    ensures empty_operation { effective_servers (examples.served (examples.server (codes "/a"))) examples.nothing
        (examples.served (array no_items)) ≡ array no_items }
{}

/// Worked examples of the parameters: through a reference, overridden, and references that lead to no parameter.
pub fn parameters_examples()
    ensures overridden { effective_parameters examples.with_limit examples.pages_of_item examples.pages_of_operation
        ≡ examples.effective_pages }
    ensures lost { listed_parameters examples.with_limit examples.lost_references ≡ examples.as_they_stand }
{}

/// Where nothing is told, each operation that comes from a document and stands in the merged one means there what it means in its own.
pub fn nothing_told_means_the_same()
    ensures { (documents : List Data) (merged : Data) → changed_meanings documents merged ≡ []
        → (i : ℕ) (d : Data) → slice_get documents i ≡ Some d → (o : Operation) → IsOneOf o (operations d)
        → first_with o.0 0 documents ≡ Some i → (t : Standing) → standing_at o.0 merged ≡ Some t → MeansTheSame (d, o.1, o.2) t }
{}

/// What a change is displayed as is on one line, and the lines of some are as many as those.
pub fn changes_are_lines()
    ensures change { (c : Change) → IsOneLine (change_text c) }
    ensures lines { (cs : List Change) → AreLines (length cs) (change_lines cs) }
{}
