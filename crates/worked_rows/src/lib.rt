//! Worked rows: small plays and scripts whose outcome is computed from the definitions and compared with what is expected.
#![tactic(auto)]

ghost use Rattle.std.specs.Prelude.{◌≡◌, [], ◌∷◌, ◌++◌, None, false, codes, replicate, take};
ghost use Rattle.part_model.specs.Parts.{longest};
ghost use Rattle.part_model.specs.Demo.{demo_part};
ghost use Rattle.grant_table.specs.declared.Protocol.TheVariants.{Xvc};
ghost use Rattle.grant_table.specs.Faults.{layout_fault, group_for};
ghost use Rattle.scan_bits.specs.Words.{packed, unpacked};
ghost use Rattle.chain_model.specs.Cycles.{answers, clocks};
ghost use Rattle.chain_model.specs.Demo.{powered_demo};
ghost use Rattle.client_session.specs.declared.End.TheVariants.{Quit, Refused, Gone, Cut};
ghost use Rattle.plays.specs.Schedule.{replayed};
ghost use Rattle.plays.specs.Marks.{marks};
ghost use Rattle.plays.specs.Marks.Mark.{Joined, Captured};
ghost use Rattle.worked_rows.specs.Inputs.{hex, settck, read_id, read_two_ids, sample_pins, drive_cell, sample_both};
ghost use Rattle.worked_rows.specs.Settings.{grant, net_from, fault, one, small, pins, bits, bits_with_trst, both, both_with_net, two, three};
ghost use Rattle.worked_rows.specs.Shown.{device};
ghost use Rattle.worked_rows.specs.Pipes.{piped, comes_to};
ghost use Rattle.worked_rows.specs.Replays.{IsSo};
ghost use Rattle.worked_rows.specs.Rows.{turns, held, handed_over, scanned_twice, dropped_in_scan, dropped_in_wait, abandoned, stalled, stall_over, dropped_and_waits_again, drops_told, info_reply};

/// `getinfo:` is answered with the vector length, `settck:` with its period, and a `shift:` of no bits with nothing.
pub fn messages()
    ensures info { piped one 2542 (codes "getinfo:") ≡ comes_to info_reply (Gone 8) (device 0 0 0 0 ∷ []) 6 }
    ensures period { piped one 2542 (settck 100) ≡ comes_to (hex (codes "64000000")) (Gone 11) (device 0 0 0 0 ∷ []) 6 }
    ensures zero { piped one 2542 (settck 0) ≡ comes_to (hex (codes "00000000")) (Gone 11) (device 0 0 0 0 ∷ []) 6 }
    ensures no_bits { piped one 2542 (codes "shift:" ++ hex (codes "00000000") ++ settck 100) ≡ comes_to (hex (codes "64000000")) (Gone 21) (device 0 0 0 0 ∷ []) 6 }
{}

/// A vector that is longer than the announced length is refused at its length, a word that is none of the three at the byte
/// where it departs, and a message that is not whole is cut where its peer is gone.
pub fn refusals()
    ensures fits { piped small 2542 (codes "shift:" ++ hex (codes "080000000000")) ≡ comes_to (hex (codes "ff")) (Gone 12) (device 0 0 0 0 ∷ []) 6 }
    ensures long { piped small 2542 (codes "shift:" ++ hex (codes "0900000000000000")) ≡ comes_to [] (Refused 6 2) (device 0 0 0 0 ∷ []) 6 }
    ensures word { piped one 2542 (codes "shoft:") ≡ comes_to [] (Refused 2 1) (device 0 0 0 0 ∷ []) 6 }
    ensures cut { piped one 2542 (take 19 read_id) ≡ comes_to [] (Cut 19) (device 0 0 0 0 ∷ []) 6 }
{}

/// After a reset DEVICE_ID is selected, and its 32 bits come out lowest first, between bits that are 1 where TDO is not driven.
/// Two devices in one grant give the second one's bits first.
pub fn identification()
    ensures cycles { packed (answers (clocks (take 38 (unpacked (hex (codes "0200000018")))) (replicate 38 false)) powered_demo) ≡ hex (codes "ff00cdab31") }
    ensures one { piped one 2542 read_id ≡ comes_to (hex (codes "ff00cdab31")) (Gone 20) (device 1 1 0 0 ∷ []) 87 }
    ensures two { piped both 2542 read_two_ids ≡ comes_to (hex (codes "ff00cdabf100cdab31")) (Gone 28) (device 1 1 0 0 ∷ device 1 1 0 0 ∷ []) 155 }
{}

/// SAMPLE captures the pins each time, whatever is latched.
pub fn fixed_pins()
    ensures { piped pins 2542 (sample_pins ++ sample_pins) ≡ comes_to (hex (codes "3f5e073f5e07")) (Gone 32) (device 2 2 5 0 ∷ []) 56 }
{}

/// The letters of remote_bitbang: TDO is read between the edges, `Q` closes an open scan, and an unknown byte is refused.
pub fn letters()
    ensures read { piped bits 3335 (codes "R4062624040R4R0R") ≡ comes_to (codes "1110") (Gone 16) (device 0 0 0 0 ∷ []) 6 }
    ensures quit { piped bits 3335 (codes "4062404040404040RQ40R") ≡ comes_to (codes "0") (Quit 17) (device 1 1 0 0 ∷ []) 87 }
    ensures unknown { piped bits 3335 (codes "4062R40x") ≡ comes_to (codes "1") (Refused 7 3) (device 0 0 0 0 ∷ []) 6 }
{}

/// TRST abandons an open scan without an update and holds the controller in reset; where the setup has no TRST its letters do nothing.
pub fn test_reset()
    ensures abandons { piped bits_with_trst 3335 (codes "4062404040404040RtRrQ") ≡ comes_to (codes "01") (Quit 20) (device 1 0 0 0 ∷ []) 52 }
    ensures ignored { piped bits 3335 (codes "4062404040404040RtRrQ") ≡ comes_to (codes "00") (Quit 20) (device 1 1 0 0 ∷ []) 87 }
    ensures holds { piped bits_with_trst 3335 (codes "t40624040rR") ≡ comes_to (codes "1") (Gone 11) (device 0 0 0 0 ∷ []) 6 }
{}

/// A net carries what EXTEST drives, from the update that latched it on, and nothing under SAMPLE.
pub fn nets()
    ensures carried { piped both_with_net 2542 (drive_cell ++ drive_cell ++ sample_both) ≡ comes_to (hex (codes "3fe201063fe211063fe20106")) (Gone 54) (device 3 3 0 0 ∷ device 3 3 0 0 ∷ []) 117 }
    ensures absent { piped both 2542 (drive_cell ++ drive_cell ++ sample_both) ≡ comes_to (hex (codes "3fe201063fe201063fe20106")) (Gone 54) (device 3 3 0 0 ∷ device 3 3 0 0 ∷ []) 117 }
{}

/// Two connections in turns, and a scan that is held while another connection waits.
pub fn sharing()
    ensures turns { IsSo turns }
    ensures held { IsSo held }
    ensures handed_over { IsSo handed_over }
    ensures scanned_twice { IsSo scanned_twice }
{}

/// Drops: within a scan, and while the connection waits.
pub fn drops()
    ensures in_scan { IsSo dropped_in_scan }
    ensures in_wait { IsSo dropped_in_wait }
    ensures waits_again { IsSo dropped_and_waits_again }
    ensures told_once { drops_told (replayed three dropped_and_waits_again.lines).steps ≡ 2 ∷ [] }
{}

/// A scan abandoned by TRST frees the chain for the connection that waits.
pub fn abandoned_scan()
    ensures { IsSo abandoned }
{}

/// A peer that takes two bytes: its session takes no further message until it takes the rest.
pub fn stalled_peer()
    ensures stalled { IsSo stalled }
    ensures over { IsSo stall_over }
{}

/// Who captures and who joins those that wait, in order, where one message ends a scan and begins a second.
pub fn marked()
    ensures { marks two (replayed two scanned_twice.lines).steps ≡ Captured 0 ∷ Joined 1 ∷ Joined 0 ∷ Captured 1 ∷ Captured 0 ∷ [] }
{}

/// Layouts that are refused, each with the first cause that applies; and the places of a grant, which rise.
pub fn layouts()
    ensures sound { layout_fault 3 (grant (3 ∷ 1 ∷ []) 2542 Xvc ∷ grant (2 ∷ []) 2543 Xvc ∷ []) [] ≡ None }
    ensures rising { group_for 3 (grant (3 ∷ 1 ∷ []) 2542 Xvc) ≡ 0 ∷ 2 ∷ [] }
    ensures no_device { layout_fault 1 (grant [] 2542 Xvc ∷ []) [] ≡ fault 1 1 0 }
    ensures in_two { layout_fault 2 (grant (1 ∷ []) 2542 Xvc ∷ grant (2 ∷ 1 ∷ []) 2543 Xvc ∷ []) [] ≡ fault 2 2 1 }
    ensures in_one { layout_fault 2 (grant (1 ∷ 1 ∷ 9 ∷ []) 2542 Xvc ∷ []) [] ≡ fault 2 1 1 }
    ensures range { layout_fault 2 (grant (1 ∷ 3 ∷ []) 2542 Xvc ∷ []) [] ≡ fault 3 1 3 }
    ensures port { layout_fault 2 (grant (1 ∷ []) 0 Xvc ∷ []) [] ≡ fault 3 1 0 }
    ensures ports { layout_fault 2 (grant (1 ∷ []) 2542 Xvc ∷ grant (2 ∷ []) 2542 Xvc ∷ []) [] ≡ fault 4 2 2542 }
    ensures devices { layout_fault 33 [] [] ≡ fault 5 0 33 }
    ensures grants { layout_fault 1 [] [] ≡ fault 5 0 0 }
    ensures apart { layout_fault 2 (grant (1 ∷ []) 2542 Xvc ∷ grant (2 ∷ []) 2543 Xvc ∷ []) (net_from 1 0 2 0 ∷ []) ≡ fault 6 0 1 }
    ensures alone { layout_fault 2 (grant (1 ∷ []) 2542 Xvc ∷ []) (net_from 2 0 2 1 ∷ []) ≡ fault 6 0 1 }
    ensures meets { layout_fault 2 (grant (1 ∷ 2 ∷ []) 2542 Xvc ∷ []) (net_from 1 0 2 3 ∷ net_from 1 1 2 3 ∷ []) ≡ fault 7 0 2 }
    ensures longest { longest demo_part ≡ 32 }
{}
