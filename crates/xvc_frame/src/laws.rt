//! Laws of the messages of XVC 1.0: each function's contract is the law, and its body is empty.

ghost use Rattle.std.specs.Prelude.{◌≡◌, ◌≤◌, ◌<◌, ◌⊎◌, ◌+◌, ◌-◌, ◌*◌, ◌^◌, ℕ, Bool, List, [], ◌∷◌, ◌++◌, take, length};
ghost use Rattle.scan_bits.specs.Words.{byte_count, unpacked};
ghost use Rattle.xvc_frame.specs.Messages.{front, refused, want, Framed, Refusal, IsFramed, Message, IsMessage, IsRefused, AreBytes, Completes, ExceedsEarly, Fits, encoded, encoded_shift, encoded_from};
ghost use Rattle.xvc_frame.specs.Messages.Message.{Shift};

/// What stands behind a message or a refusal doesn't change it.
pub fn bytes_behind_change_nothing()
    ensures message { (vector : ℕ) (bytes more : List ℕ) (framed : Framed) → front vector bytes ≡ Some framed → front vector (bytes ++ more) ≡ Some framed }
    ensures refusal { (vector : ℕ) (bytes more : List ℕ) (refusal : Refusal) → refused vector bytes ≡ Some refusal → refused vector (bytes ++ more) ≡ Some refusal }
{}

/// No message's bytes are a proper prefix of another's, bytes are at most one message, and no bytes that begin with a message are refused.
pub fn messages_are_prefix_free()
    ensures prefix { (vector : ℕ) (first second : Message) (bytes more : List ℕ) → IsMessage vector first bytes → IsMessage vector second (bytes ++ more) → more ≡ [] }
    ensures one { (vector : ℕ) (first second : Message) (bytes : List ℕ) → IsMessage vector first bytes → IsMessage vector second bytes → first ≡ second }
    ensures refused { (vector : ℕ) (message : Message) (bytes more : List ℕ) → IsMessage vector message bytes → refused vector (bytes ++ more) ≡ None }
{}

/// The reading from the front finds exactly the messages in their three cases, and the message that bytes begin with is that of its own bytes.
/// Bytes below 256 are asked one way only: the number of four others is that of other four bytes too.
pub fn front_is_the_message()
    ensures framed { (vector : ℕ) (message : Message) (bytes : List ℕ) → IsMessage vector message bytes → IsFramed vector message bytes }
    ensures message { (vector : ℕ) (message : Message) (bytes : List ℕ) → AreBytes bytes → IsFramed vector message bytes → IsMessage vector message bytes }
    ensures part { (vector : ℕ) (bytes : List ℕ) (framed : Framed) → AreBytes bytes → front vector bytes ≡ Some framed → (framed.bytes ≤ length bytes) × IsMessage vector framed.message (take framed.bytes bytes) }
{}

/// The refusal that is computed is the one of the two causes.
pub fn refusal_is_of_a_cause()
    ensures cause { (vector : ℕ) (bytes : List ℕ) (at cause : ℕ) → refused vector bytes ≡ Some (record { at = at; cause = cause }) → IsRefused vector bytes at cause }
    ensures refused { (vector : ℕ) (bytes : List ℕ) (at cause : ℕ) → IsRefused vector bytes at cause → refused vector bytes ≡ Some (record { at = at; cause = cause }) }
{}

/// The bytes that are wanted are the fewest that complete a message that begins with those held.
/// Where there is none, which is where the first bytes of a number of cycles exceed the vector already, they are the bytes of that number that are missing.
pub fn want_is_the_fewest()
    ensures fewest { (vector : ℕ) (message : Message) (bytes more : List ℕ) → IsMessage vector message (bytes ++ more) → want vector bytes ≤ length more }
    ensures enough { (vector : ℕ) (message : Message) (bytes more : List ℕ) → AreBytes bytes → IsMessage vector message (bytes ++ more) → Completes vector bytes (want vector bytes) }
    ensures otherwise { (vector : ℕ) (bytes : List ℕ) → AreBytes bytes → front vector bytes ≡ None → refused vector bytes ≡ None → Completes vector bytes (want vector bytes) ⊎ ExceedsEarly vector bytes }
    ensures none { (vector : ℕ) (message : Message) (bytes more : List ℕ) → ExceedsEarly vector bytes → ¬ IsMessage vector message (bytes ++ more) }
    ensures missing { (vector : ℕ) (bytes : List ℕ) → ExceedsEarly vector bytes → want vector bytes ≡ 10 - length bytes }
{}

/// What is encoded is read as that message, and an accepted message is the encoding of its parts, with the spare bits that it came with.
pub fn encodings_are_read_back()
    ensures encoded { (vector : ℕ) (message : Message) → Fits vector message → IsMessage vector message (encoded message) }
    ensures shift { (vector count : ℕ) (tms tdi : List ℕ) → count ≤ 8 * vector → count < 2 ^ 32 → length tms ≡ byte_count count → length tdi ≡ byte_count count
        → IsMessage vector (Shift (take count (unpacked tms)) (take count (unpacked tdi))) (encoded_shift count tms tdi) }
    ensures parts { (vector : ℕ) (message : Message) (bytes : List ℕ) → IsMessage vector message bytes → bytes ≡ encoded_from bytes message }
{}
