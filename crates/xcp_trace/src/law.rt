//! Laws of the definitions.
ghost use Rattle.std.specs.Prelude.{◌≡◌, ◌∷◌, ℕ, List, length};
ghost use Rattle.xcp_slave.specs.declared.Request.{Request};
ghost use Rattle.xcp_trace.specs.EntrySpelling.{entry_in};
ghost use Rattle.xcp_trace.specs.ExchangeSpelling.{IsSpelt, answer_spelt, exchange_in, spelling};
ghost use Rattle.xcp_trace.specs.Tape.{spelt, strings_in};

/// Does nothing: its contract says that strings are read again off their bytes, an exchange off the
/// string of its parts, and an entry off its own.
pub fn what_is_written_is_read_again()
    ensures strings { (strings : List (List ℕ)) → strings_in (length strings) (spelt strings) ≡ strings }
    ensures exchange { (request : Request) (tag n : ℕ) (bytes : List ℕ) → IsSpelt request → exchange_in (spelling request tag n bytes)
        ≡ record { request = request; answer = answer_spelt tag n bytes } }
    ensures entry { (caller : ℕ) (string : List ℕ) → entry_in (caller ∷ string)
        ≡ record { caller = caller; exchange = exchange_in string } }
{}
