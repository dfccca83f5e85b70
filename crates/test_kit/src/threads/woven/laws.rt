//! What the streams of harts tell.

ghost use Rattle.std.specs.Prelude.{◌≡◌, ℕ, Bool, false, List, [], ◌∷◌, None, Some};
ghost use Rattle.rept_trace.specs.declared.packet.Packet.{Packet};
ghost use Rattle.rept_encode.specs.declared.weaving.stretch.HartStretch.{HartStretch};
ghost use Rattle.rept_encode.specs.Weaving.Woven.{AreSent};
ghost use Rattle.rept_streams.specs.Slices.Parts.{told_from};
ghost use Rattle.rept_streams.specs.Slices.Skipping.{window_of};
ghost use Rattle.rept_streams.specs.Slices.Checks.{back_from};
ghost use Rattle.rept_dump.specs.Memory.{Contents};
ghost use Rattle.rept_trace.specs.Streams.{StreamFile};
ghost use Rattle.rept_encode.specs.Encoded.{coded};
ghost use Rattle.rept_encode.specs.Weaving.Woven.{AreStreamsOf};
ghost use Rattle.rept_streams.specs.Slices.Joins.{ThreadNote};
ghost use Rattle.rept_streams.specs.Slices.Raw.{IsRunOfFiles};
ghost use Rattle.test_kit.specs.Threads.Woven.Told.{AreSlicesOf, AreInTime};
ghost use Rattle.test_kit.specs.Threads.Woven.Ordered.{run_of_harts, AreOrdered, HasStretches};
ghost use Rattle.test_kit.specs.Threads.Woven.Worked as worked;

/// The slices of a stream that was written of the stretches of a hart are these stretches, one by
/// one: of their threads, and with their begins and ends.
pub fn slices_are_stretches()
    ensures { (halves : Bool) (stretches : List HartStretch) (packets : List Packet) (s k : ℕ) → AreSent halves stretches packets → AreSlicesOf halves s stretches (told_from s k None packets) }
{}

/// No packet of such a stream is skipped for its window: it begins with the first packet.
pub fn windows_are_whole()
    ensures { (halves : Bool) (first : HartStretch) (others : List HartStretch) (packets : List Packet) → AreSent halves (first ∷ others) packets → window_of 0 packets ≡ Some 0 }
{}

/// Where each stretch ends not before its begin, and the next one begins not before that, no time
/// of the stream goes back.
pub fn times_rise()
    ensures { (halves : Bool) (stretches : List HartStretch) (packets : List Packet) (k : ℕ) → AreSent halves stretches packets → AreInTime 0 stretches → back_from k [] packets ≡ None }
{}

/// A file each stream of which was written of the stretches of a hart tells the run of all harts:
/// the rows and the slices of each thread, until when nothing is told, and that no packet is
/// skipped. The code has the instructions of the stretches, and stretches and the notes of the
/// threads are in order.
pub fn runs_are_whole()
    ensures { (contents : Contents) (file : StreamFile) (notes : List ThreadNote) (harts : List (List HartStretch)) → AreStreamsOf file.halves harts file.streams → HasStretches (coded file.halves contents) harts → AreOrdered harts notes → IsRunOfFiles (record { contents = contents; file = file; notes = notes; from = 0 }) (run_of_harts harts notes) }
{}

/// An example of harts and notes that are in order: two threads that go from one hart to another.
/// The code has their instructions, and this is the run.
pub fn worked_example()
    ensures ordered { AreOrdered worked.harts worked.notes }
    ensures carries { HasStretches (coded false worked.code) worked.harts }
    ensures run { run_of_harts worked.harts worked.notes ≡ worked.run }
{}
