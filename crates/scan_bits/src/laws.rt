//! Laws of the definitions, for the crates above to cite.
ghost use Rattle.std.specs.Prelude.{ℕ, ◌≡◌, ◌++◌, ◌≤◌, ◌<◌, ◌+◌, ◌-◌, ◌*◌, ◌/◌, ◌%◌, ◌^◌, List, Bool, false, take, drop, length, replicate};
ghost use Rattle.std.specs.List.{All};
ghost use Rattle.scan_bits.specs.Words.{bits_of, number_of, bytes_of, number_of_bytes, unpacked, packed, byte_count};
ghost use Rattle.scan_bits.specs.Registers.{shifted, shifted_all, shifted_out, joined, shifted_stages};

/// A number below 2 ^ n and n bits are the same.
pub fn bits_are_numbers()
    ensures length { (count value : ℕ) → length (bits_of count value) ≡ count }
    ensures number { (count value : ℕ) → number_of (bits_of count value) ≡ value % 2 ^ count }
    ensures bits { (bits : List Bool) → bits_of (length bits) (number_of bits) ≡ bits }
    ensures bound { (bits : List Bool) → number_of bits < 2 ^ length bits }
    ensures lowest { (count value : ℕ) → bits_of count (value % 2 ^ count) ≡ bits_of count value }
{}

/// The bits of a number in two parts, and the number of two parts of bits.
pub fn bits_are_joined()
    ensures bits { (low high value : ℕ) → bits_of (low + high) value ≡ bits_of low value ++ bits_of high (value / 2 ^ low) }
    ensures number { (low high : List Bool) → number_of (low ++ high) ≡ number_of low + 2 ^ length low * number_of high }
{}

/// A bit vector in bytes gives its bits back, and then spare bits that are 0.
pub fn bit_vectors_are_bytes()
    ensures packed_length { (bits : List Bool) → length (packed bits) ≡ byte_count (length bits) }
    ensures packed_bytes { (bits : List Bool) → All (λ byte. byte < 256) (packed bits) }
    ensures unpacked_length { (bytes : List ℕ) → length (unpacked bytes) ≡ 8 * length bytes }
    ensures bits { (bits : List Bool) → unpacked (packed bits) ≡ bits ++ replicate (8 * byte_count (length bits) - length bits) false }
    ensures bytes { (bytes : List ℕ) → All (λ byte. byte < 256) bytes → packed (unpacked bytes) ≡ bytes }
{}

/// A number below 256 ^ n and n little-endian bytes are the same.
pub fn bytes_are_numbers()
    ensures length { (count value : ℕ) → length (bytes_of count value) ≡ count }
    ensures bytes { (count value : ℕ) → All (λ byte. byte < 256) (bytes_of count value) }
    ensures number { (count value : ℕ) → value < 256 ^ count → number_of_bytes (bytes_of count value) ≡ value }
    ensures back { (bytes : List ℕ) → All (λ byte. byte < 256) bytes → bytes_of (length bytes) (number_of_bytes bytes) ≡ bytes }
{}

/// The stages of a chain behave as one register.
pub fn stages_are_one_register()
    ensures { (stages : List (List Bool)) (tdi : Bool) → joined (shifted_stages tdi stages) ≡ shifted (joined stages) tdi }
{}

/// As many shifts as there are bits given give the first bits out, and leave the rest and then the bits given.
pub fn shifts_are_a_queue()
    ensures out { (register bits : List Bool) → length bits ≤ length register → shifted_out register bits ≡ take (length bits) register }
    ensures rest { (register bits : List Bool) → length bits ≤ length register → shifted_all register bits ≡ drop (length bits) register ++ bits }
{}

/// The register and what comes in are one stream: the first of its bits leave, and the others stay.
pub fn shifts_are_a_stream()
    ensures out { (register bits : List Bool) → shifted_out register bits ≡ take (length bits) (register ++ bits) }
    ensures rest { (register bits : List Bool) → shifted_all register bits ≡ drop (length bits) (register ++ bits) }
{}

/// A shift keeps the length of a register, and as many bits leave as come in.
pub fn shifts_keep_the_length()
    ensures one { (register : List Bool) (tdi : Bool) → length (shifted register tdi) ≡ length register }
    ensures all { (register bits : List Bool) → length (shifted_all register bits) ≡ length register }
    ensures out { (register bits : List Bool) → length (shifted_out register bits) ≡ length bits }
{}

/// Two rows of shifts are one.
pub fn shifts_are_joined()
    ensures all { (register first then : List Bool) → shifted_all register (first ++ then) ≡ shifted_all (shifted_all register first) then }
    ensures out { (register first then : List Bool) → shifted_out register (first ++ then) ≡ shifted_out register first ++ shifted_out (shifted_all register first) then }
{}
