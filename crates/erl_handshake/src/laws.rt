//! Laws of the definitions. Each function does nothing: its contract is the law.
ghost use Rattle.std.specs.Prelude.{◌≡◌, ◌↔◌, ◌<◌, ◌≤◌, ◌^◌, ◌++◌, List, ℕ, length, Option, Some, Result, Ok, IsTrue, true, false, codes, decimal, get_or};
ghost use Rattle.std.specs.List.{AllPass};
ghost use Rattle.std.specs.Int.{IsBitSet};
ghost use Rattle.readers.specs.Reading.{AreBytes};
ghost use Rattle.erl_term.specs.declared.refusal.Refusal.{Refusal};
ghost use Rattle.erl_handshake.specs.declared.flags.Flag.{Flag};
ghost use Rattle.erl_handshake.specs.declared.flags.Flag.TheVariants as Flag;
ghost use Rattle.erl_handshake.specs.declared.message.Role.{Role};
ghost use Rattle.erl_handshake.specs.declared.message.ShakeMsg.{ShakeMsg};
ghost use Rattle.erl_handshake.specs.declared.profile.Profile.{Profile};
ghost use Rattle.erl_handshake.specs.declared.profile.Profile.TheVariants as profile;
ghost use Rattle.erl_handshake.specs.Answer.{IsShakeDue};
ghost use Rattle.erl_handshake.specs.Digest.{digest_of};
ghost use Rattle.erl_handshake.specs.Flags.{flag_value, flags_of, offers, has_all_of, mandatory, mandatory_flags};
ghost use Rattle.erl_handshake.specs.Messages.{HasFields, IsFor, IsShake, written};

/// To any bytes, and a reader of either role, one answer is due, and no second.
pub fn one_answer()
    ensures due { (role : Role) (bytes : List ℕ) → AreBytes bytes → (due : Result (Option (ShakeMsg × ℕ)) Refusal) × IsShakeDue role bytes due }
    ensures once { (role : Role) (bytes : List ℕ) (one other : Result (Option (ShakeMsg × ℕ)) Refusal) → IsShakeDue role bytes one → IsShakeDue role bytes other → one ≡ other }
{}

/// To a reader of either role no message begins another.
pub fn one_message()
    ensures { (role : Role) (m k : ShakeMsg) (a b x y : List ℕ) → IsShake role m a → IsShake role k b → a ++ x ≡ b ++ y → (m ≡ k) × (a ≡ b) }
{}

/// A message is read again, whatever follows it.
pub fn read_again()
    ensures { (role : Role) (message : ShakeMsg) (bytes rest : List ℕ) → IsShake role message bytes → IsShakeDue role (bytes ++ rest) (Ok (Some (message, length bytes))) }
{}

/// Proves that a written message is one of the table, to a reader that it is for.
pub fn written_is_shake()
    ensures { (role : Role) (message : ShakeMsg) → IsFor role message → HasFields message → IsShake role message (written message) }
{}

/// Proves that a written message takes at most 85 bytes.
pub fn short_messages()
    ensures { (message : ShakeMsg) → HasFields message → length (written message) ≤ 85 }
{}

/// Flags by their bits: a flag is one bit, and is offered where that bit is set; and a word has all
/// of another where each bit of the other is set in it too. A word has all mandatory flags where it
/// offers each of them.
pub fn flags_by_bits()
    ensures one_bit { (flag : Flag) → (k : ℕ) × (flag_value flag ≡ 2 ^ k) }
    ensures offered { (word : ℕ) (flag : Flag) (k : ℕ) → flag_value flag ≡ 2 ^ k → IsTrue (offers word flag) ↔ IsBitSet word k }
    ensures all { (word required : ℕ) → IsTrue (has_all_of word required) ↔ ((k : ℕ) → IsBitSet required k → IsBitSet word k) }
    ensures mandatory { (word : ℕ) → IsTrue (has_all_of word mandatory) ↔ AllPass (offers word) mandatory_flags }
{}

/// Proves that each profile has all flags that are mandatory. From the second on a profile offers
/// EXIT_PAYLOAD, and the third alone offers DIST_MONITOR_NAME.
pub fn flags_of_profiles()
    ensures mandatory { (p : Profile) → has_all_of (flags_of p) mandatory ≡ true }
    ensures no_payload { offers (flags_of profile.One) Flag.ExitPayload ≡ false }
    ensures payload { offers (flags_of profile.Two) Flag.ExitPayload ≡ true }
    ensures third_payload { offers (flags_of profile.Three) Flag.ExitPayload ≡ true }
    ensures first_names { offers (flags_of profile.One) Flag.DistMonitorName ≡ false }
    ensures second_names { offers (flags_of profile.Two) Flag.DistMonitorName ≡ false }
    ensures names { offers (flags_of profile.Three) Flag.DistMonitorName ≡ true }
{}

/// A digest has 16 bytes. The challenge in decimal is 0, or begins with no 0; and no two challenges
/// are written alike.
pub fn digests()
    ensures length { (cookie : List ℕ) (challenge : ℕ) → length (digest_of cookie challenge) ≡ 16 }
    ensures zero { decimal 0 ≡ codes "0" }
    ensures leading { (challenge : ℕ) → 0 < challenge → challenge < 2 ^ 32 → 48 < get_or (decimal challenge) 0 0 }
    ensures one { (m n : ℕ) → m < 2 ^ 32 → n < 2 ^ 32 → decimal m ≡ decimal n → m ≡ n }
{}
