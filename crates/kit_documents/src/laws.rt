//! Laws of cases and of transcripts. Each is a function with no parameters and an empty body; its contract is the law.
ghost use Rattle.std.specs.Prelude.{◌≡◌, List};
ghost use Rattle.toml.specs.Data.{Data};
ghost use Rattle.kit_documents.specs.declared.field.KitField.{KitField as Wrong};
ghost use Rattle.document_values.specs.Demands.{AllMet, IsFirstUnmet};
ghost use Rattle.kit_documents.specs.declared.cases.case.Case.{Case as CaseSaid};
ghost use Rattle.kit_documents.specs.declared.transcripts.told.Told.{Told as ToldSaid};
ghost use Rattle.kit_documents.specs.Cases.{cases_demands, AreSameCases, SaysCase};
ghost use Rattle.kit_documents.specs.Transcripts.{transcripts_demands, AreSameTranscripts, SaysTranscript};

/// A table describes at most one case. If all demands on the cases are met, no field is invalid; otherwise at most one
/// field is the first invalid one.
pub fn one_case()
    ensures case { (d : Data) (a b : CaseSaid) → SaysCase d a → SaysCase d b → AreSameCases a b }
    ensures no_field { (ds : List Data) (wrong : Wrong) → AllMet (cases_demands ds) → IsFirstUnmet wrong (cases_demands ds) → ⊥ }
    ensures one_field { (ds : List Data) (wrong other : Wrong)
        → IsFirstUnmet wrong (cases_demands ds) → IsFirstUnmet other (cases_demands ds)
        → wrong ≡ other }
{}

/// A table describes at most one transcript. If all demands on the transcripts are met, no field is invalid; otherwise
/// at most one field is the first invalid one.
pub fn one_told()
    ensures transcript { (cases : List Data) (d : Data) (a b : ToldSaid)
        → SaysTranscript cases d a → SaysTranscript cases d b
        → AreSameTranscripts a b }
    ensures no_field { (cases ds : List Data) (wrong : Wrong)
        → AllMet (transcripts_demands cases ds) → IsFirstUnmet wrong (transcripts_demands cases ds)
        → ⊥ }
    ensures one_field { (cases ds : List Data) (wrong other : Wrong)
        → IsFirstUnmet wrong (transcripts_demands cases ds) → IsFirstUnmet other (transcripts_demands cases ds)
        → wrong ≡ other }
{}
