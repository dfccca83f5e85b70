//! Laws of the definitions.

ghost use Rattle.std.specs.Prelude.{◌≡◌, ◌⊎◌, ◌<◌, ◌^◌, ℕ, List, [], ◌∷◌, Some, None};
ghost use Rattle.std.specs.List.{All};
ghost use Rattle.rept_path.specs.declared.fault.PathFault.{PathFault};
ghost use Rattle.rept_steps.specs.declared.run.Run.{Run};
ghost use Rattle.rept_steps.specs.Course.{IsSoundCourse};
ghost use Rattle.rept_trace.specs.declared.packet.Packet.{Packet};
ghost use Rattle.rept_path.specs.Trace.{IsWindow};
ghost use Rattle.rept_path.specs.declared.fault.PathFault.TheVariants.{NoStart, TimeBack, SliceOverlap, UnknownThread, OtherThread};
ghost use Rattle.rept_streams.specs.Slices.Worked.{times, says, fault, overlaps, two_harts, moved, next_elsewhere, one_hart, whole_stream_skipped, tied_while_skipped, start_at_the_time, time_goes_back, time_goes_back_after_a_slice, no_packets, no_start, packets_lost, back_before_no_start, unknown_thread, other_thread, unknown_before_other, no_start_before_unknown, skipped_thread, other_thread_skipped, one_time, later_packet, packet_after_the_end, start_that_ends, times_that_touch, streams_apart, first_note_first, least_time_first};
ghost use Rattle.rept_streams.specs.Slices.Stamps.{clock_of};
ghost use Rattle.rept_streams.specs.Slices.Skipping.{window_of};
ghost use Rattle.rept_streams.specs.Slices.Many.{Traces, IsRunOfStreams, HasNoRunOfStreams};

/// Packets of several streams have a run or a refusal, and only one.
pub fn one_answer()
    ensures run { (t : Traces) (a b : Run) → IsRunOfStreams t a → IsRunOfStreams t b → a ≡ b }
    ensures refusal { (t : Traces) (d e : PathFault) → HasNoRunOfStreams t d → HasNoRunOfStreams t e → d ≡ e }
    ensures either { (t : Traces) (a : Run) (e : PathFault) → IsRunOfStreams t a → HasNoRunOfStreams t e → ⊥ }
    ensures some { (t : Traces) → ((run : Run) × IsRunOfStreams t run) ⊎ ((e : PathFault) × HasNoRunOfStreams t e) }
{}

/// The window of each stream is the one that it would have as a trace of its own.
pub fn windows_agree()
    ensures { (from : ℕ) (packets : List Packet) → IsWindow packets from (window_of from packets) }
{}

/// The run of packets whose times have 64 bits is sound.
pub fn runs_are_sound()
    ensures { (t : Traces) (run : Run) → All (All (λ p. clock_of p < 2 ^ 64)) t.streams → IsRunOfStreams t run → IsSoundCourse (record { threads = run.threads; untraced = run.untraced }) }
{}

/// Examples worked out by hand: what streams tell of the threads that run as the processes 1 and 2.
pub fn worked_examples()
    ensures two_harts { says 0 two_harts ≡ record { slices = times 0 1 1 3 ∷ times 0 1 3 9 ∷ times 0 1 9 18446744073709551615 ∷ times 1 2 1 4 ∷ times 1 2 4 8 ∷ []; untraced = Some 1; skipped = 0 } }
    ensures two_harts_later { says 1 two_harts ≡ record { slices = times 0 1 9 18446744073709551615 ∷ times 1 2 4 8 ∷ []; untraced = Some 9; skipped = 3 } }
    ensures moved { says 0 moved ≡ record { slices = times 0 2 9 18446744073709551615 ∷ times 1 2 2 7 ∷ times 1 1 7 18446744073709551615 ∷ []; untraced = Some 5; skipped = 3 } }
    ensures next_elsewhere { says 0 next_elsewhere ≡ record { slices = times 0 1 1 6 ∷ times 1 2 1 6 ∷ times 1 1 6 18446744073709551615 ∷ []; untraced = Some 1; skipped = 0 } }
    ensures one_hart { says 0 one_hart ≡ record { slices = times 0 1 5 18446744073709551615 ∷ []; untraced = None; skipped = 0 } }
    ensures whole_stream_skipped { says 0 whole_stream_skipped ≡ record { slices = times 1 2 5 18446744073709551615 ∷ []; untraced = Some 18446744073709551615; skipped = 2 } }
    ensures tied_while_skipped { says 0 tied_while_skipped ≡ record { slices = times 2 2 5 18446744073709551615 ∷ []; untraced = Some 9; skipped = 6 } }
    ensures start_at_the_time { says 0 start_at_the_time ≡ record { slices = times 0 1 5 18446744073709551615 ∷ times 1 2 5 18446744073709551615 ∷ []; untraced = Some 5; skipped = 1 } }
    ensures time_goes_back { fault time_goes_back ≡ Some (TimeBack 1) }
    ensures time_goes_back_after_a_slice { fault time_goes_back_after_a_slice ≡ Some (TimeBack 3) }
    ensures no_packets { fault no_packets ≡ Some (NoStart 0) }
    ensures no_start { fault no_start ≡ Some (NoStart 2) }
    ensures packets_lost { fault packets_lost ≡ Some (NoStart 2) }
    ensures back_before_no_start { fault back_before_no_start ≡ Some (TimeBack 3) }
    ensures no_fault { fault two_harts ≡ None }
    ensures unknown_thread { fault unknown_thread ≡ Some (UnknownThread 4 3) }
    ensures other_thread { fault other_thread ≡ Some (OtherThread 5 1) }
    ensures unknown_before_other { fault unknown_before_other ≡ Some (UnknownThread 5 3) }
    ensures no_start_before_unknown { fault no_start_before_unknown ≡ Some (NoStart 1) }
    ensures skipped_thread { fault skipped_thread ≡ None }
    ensures other_thread_skipped { fault other_thread_skipped ≡ None }
    ensures one_time { overlaps one_time ≡ Some (SliceOverlap 1 1) }
    ensures later_packet { overlaps later_packet ≡ Some (SliceOverlap 1 3) }
    ensures packet_after_the_end { overlaps packet_after_the_end ≡ None }
    ensures start_that_ends { overlaps start_that_ends ≡ Some (SliceOverlap 1 3) }
    ensures times_that_touch { overlaps times_that_touch ≡ None }
    ensures streams_apart { overlaps streams_apart ≡ Some (SliceOverlap 1 4) }
    ensures first_note_first { overlaps first_note_first ≡ Some (SliceOverlap 1 4) }
    ensures least_time_first { overlaps least_time_first ≡ Some (SliceOverlap 1 4) }
{}
