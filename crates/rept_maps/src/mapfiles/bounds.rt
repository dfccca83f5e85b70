//! What no core file can bring about.

ghost use Rattle.std.specs.Prelude.{List, ℕ, ◌≤◌, length};
ghost use Rattle.rept_ports.specs.Shelves.{Files};
ghost use Rattle.rept_maps.specs.Mapfiles.Kept.{asked_names, kept_all, kept_by, most_names, taken, total};

/// At most 64 names are loaded, whatever the core file lists; what is kept of a file is within its
/// limit, and what is kept of all files is within the room for them.
pub fn bounds_hold()
    ensures few { (desc : List ℕ) → length (asked_names desc) ≤ most_names }
    ensures each { (files : Files) (limit : ℕ) (name : List ℕ) → taken (kept_by files limit name) ≤ limit }
    ensures in_all { (files : Files) (room : ℕ) (names : List (List ℕ)) → total (kept_all files room names) ≤ room }
{}
