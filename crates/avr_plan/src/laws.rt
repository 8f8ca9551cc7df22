//! Laws of the texts of a command line, over their definitions alone.
ghost use Rattle.std.specs.Prelude.{◌≡◌, ◌≢◌, ◌∷◌, ◌++◌, [], ℕ, Ok, Some, codes};
ghost use Rattle.avr_part.specs.PartFile.{Bytes};
ghost use Rattle.avr_plan.specs.Split.{colon};
ghost use Rattle.avr_plan.specs.Port.{port_number, port_of};
ghost use Rattle.avr_plan.specs.Update.{format_of, update_of, update_text};
ghost use Rattle.avr_plan.specs.declared.settings.Port.{Port};
ghost use Rattle.avr_plan.specs.declared.update.Format.{Format};
ghost use Rattle.avr_plan.specs.declared.update.Op.{Op};
ghost use Rattle.avr_part.specs.declared.part.Mem.{Mem};

/// An update written with all four parts (memory, operation, file, format) reads back, whatever colons the file's name
/// has.
#[tactic(auto, using(crate::proofs::UpdatesReread::update_is_read))]
pub fn a_written_update_is_read()
    ensures { (memory : Mem) (op : Op) (file : Bytes) (letter : ℕ) (format : Format) → file ≢ []
        → format_of op (Some letter) ≡ Some format
        → update_of (update_text memory op file letter) ≡ Ok (record
        { memory = memory; op = op; format = format; file = file }) }
{}

/// A text `net:HOST:PORT` is split at its last colon, so HOST may have colons.
#[tactic(auto, using(crate::proofs::AddressCuts::address_is_cut))]
pub fn an_address_is_cut_at_its_last_colon()
    ensures { (host port : Bytes) (number : ℕ) → host ≢ [] → port_number port ≡ Some number
        → port_of (codes "net:" ++ (host ++ colon ∷ port)) ≡ Ok (Port.Network (host ++ colon ∷ port)) }
{}
