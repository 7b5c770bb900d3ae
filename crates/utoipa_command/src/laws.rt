//! The laws of what is written.
ghost use Rattle.std.specs.Prelude.{◌≡◌, ℕ, List, [], true};
ghost use Rattle.utoipa_findings.specs.Sources.{File};
ghost use Rattle.utoipa_command.specs.Files.{is_base, IsFormatted, IsMerge, IsNest};
ghost use Rattle.utoipa_command.specs.Whole.{StandsFormatted, StandMerged, StandNested};
ghost use Rattle.utoipa_command.specs.declared.files.layout.Layout.{Layout};

/// Where no line tells of a loss, as with `strict` wherever there is an answer, all that the files have stands in the text that was written.
pub fn what_is_told_is_all()
    ensures format { (l : Layout) (file : File) (text : List ℕ) → IsFormatted l file text [] → StandsFormatted l file text }
    ensures merge { (l : Layout) (files : List File) (text : List ℕ) → IsMerge l files text [] → StandMerged l files text }
    ensures nest { (l : Layout) (base : List ℕ) (own nested : File) (text : List ℕ) → is_base base ≡ true
        → IsNest l base own nested text [] → StandNested l base own nested text }
{}
