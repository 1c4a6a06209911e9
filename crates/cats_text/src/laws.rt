//! Laws of the definitions. The grammar of texts and their faults leave nothing open, and what is written spells what
//! it was written from.

ghost use Rattle.std.specs.Prelude.{◌≡◌, ◌≢◌, ◌⊎◌, ◌++◌, ℕ, List, Some, None, option_map};
ghost use Rattle.bid_file.specs.Files.{PlainFile, IsPlainFile};
ghost use Rattle.cats_text.specs.Grammar.{Spells};
ghost use Rattle.cats_text.specs.Faults.{first_fault, complete_fault, IsOfText};
ghost use Rattle.cats_text.specs.FaultPlaces.{first_place, fault_of};
ghost use Rattle.cats_text.specs.FileLines.{spelled_file};
ghost use Rattle.cats_text.specs.Layout.{layout};
ghost use Rattle.cats_text.specs.declared.read_fault.ReadFault.{ReadFault};
ghost use Rattle.cats_text.specs.declared.read_fault.Kind.TheVariants.{Missing};

/// The layout of a file spells that file and no other.
pub fn layout_spells()
    ensures spelled { (f : PlainFile) → IsPlainFile f → Spells (layout f) f }
    ensures no_other { (f g : PlainFile) → IsPlainFile f → Spells (layout f) g → g ≡ f }
{}

/// Each text either spells exactly one bid file or has a first fault, never both.
pub fn spells_one_or_faults()
    ensures one_or_fault { (text : List ℕ) → ((f : PlainFile) × Spells text f)
        ⊎ ((e : ReadFault) × (first_fault text ≡ Some e)) }
    ensures never_both { (text : List ℕ) (f : PlainFile) (e : ReadFault) → Spells text f → first_fault text ≡ Some e
        → ⊥ }
    ensures only_one { (text : List ℕ) (f g : PlainFile) → Spells text f → Spells text g → f ≡ g }
{}

/// A text without a fault spells the file that its lines say, and a text that spells a file says that file.
pub fn faultless_text_spells()
    ensures spelled { (text : List ℕ) → first_fault text ≡ None → Spells text (spelled_file text) }
    ensures same { (text : List ℕ) (f : PlainFile) → Spells text f → spelled_file text ≡ f }
{}

/// A fault of a text has one of the kinds that belong to a text, at one of its lines or behind the last. A fault that
/// is complete is never that the input ends too early.
pub fn faults_of_texts()
    ensures first { (text : List ℕ) (e : ReadFault) → first_fault text ≡ Some e → IsOfText e }
    ensures complete { (bytes : List ℕ) (e : ReadFault) → complete_fault bytes ≡ Some e → IsOfText e }
    ensures not_missing { (bytes : List ℕ) (e : ReadFault) → complete_fault bytes ≡ Some e → e.kind ≢ Missing }
{}

/// A fault that is complete in the bytes so far is the first fault of every text that begins with them.
pub fn complete_fault_stays()
    ensures { (bytes rest : List ℕ) (e : ReadFault) → complete_fault bytes ≡ Some e
        → first_fault (bytes ++ rest) ≡ Some e }
{}

/// The first fault of a text is the one at the first place, and there is none exactly if there is no such place.
pub fn place_has_the_first_fault()
    ensures { (text : List ℕ) → option_map fault_of (first_place text) ≡ first_fault text }
{}
