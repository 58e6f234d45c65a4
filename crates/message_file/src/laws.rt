// The laws of what is attached and what is refused.
ghost use Rattle.std.specs.Prelude.{◌≡◌, ◌≢◌, ℕ, List, Some};
ghost use Rattle.outside.specs.Kept.{Bodies};
ghost use Rattle.message_file.specs.Files.{kept_of, IsFileOf};
ghost use Rattle.message_file.specs.Refusals.{RefusesFile};
ghost use Rattle.message_file.specs.declared.attaches.AttachFault.{AttachFault};
ghost use Rattle.message_file.specs.declared.attaches.AttachFault.TheVariants.{Disk as OfDisk};

/// A file of its owner keeps one list of bodies and is not refused, but for a fault of the disk; and a file that is none
/// is refused for one cause, at one place.
pub fn files_are_attached_again()
    ensures one_list { (owner : ℕ) (file : List ℕ) (bodies : Bodies) → IsFileOf owner file bodies → kept_of file ≡ bodies }
    ensures not_refused { (owner : ℕ) (file : List ℕ) (bodies : Bodies) (fault : AttachFault) →
        IsFileOf owner file bodies → RefusesFile owner fault (Some file) → fault ≡ OfDisk }
    ensures one_refusal { (owner : ℕ) (file : List ℕ) (a b : AttachFault) →
        RefusesFile owner a (Some file) → RefusesFile owner b (Some file) → a ≢ OfDisk → b ≢ OfDisk → a ≡ b }
{}
