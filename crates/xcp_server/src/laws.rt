//! A law of how a connection ends: the contract of a function with an empty body.
ghost use Rattle.std.specs.Prelude.{◌≡◌, ◌↔◌, ◌⊎◌, ℕ, Result, Ok, Err, IsOk, IsErr};
ghost use Rattle.xcp_framing.specs.declared.serving.ServeError.{ServeError};
ghost use Rattle.xcp_framing.specs.declared.serving.ServeError.TheVariants as errors;
ghost use Rattle.xcp_framing.specs.declared.serving.Served.{Served};
ghost use Rattle.xcp_outlet.specs.declared.fault.SendError.{SendError};
ghost use Rattle.xcp_connection.specs.Connections.{outcome_of};

/// A connection ends well exactly where its reading, its pump and its sender did; else its fault is that of its reading, or of its
/// pump, or it is Write and its sender has one. Where its reading has a fault, it is that one.
pub fn a_connection_ends_as_its_parts()
    ensures well { (heard : Result Served ServeError) (pumped : Result ℕ ServeError) (sent : Result ℕ SendError) (s : Served) → (outcome_of heard pumped sent ≡ Ok s) ↔ ((heard ≡ Ok s) × IsOk pumped × IsOk sent) }
    ensures fault { (heard : Result Served ServeError) (pumped : Result ℕ ServeError) (sent : Result ℕ SendError) (e : ServeError) → outcome_of heard pumped sent ≡ Err e → (heard ≡ Err e) ⊎ ((pumped ≡ Err e) ⊎ ((e ≡ errors.Write) × IsErr sent)) }
    ensures reading { (heard : Result Served ServeError) (pumped : Result ℕ ServeError) (sent : Result ℕ SendError) (e : ServeError) → heard ≡ Err e → outcome_of heard pumped sent ≡ Err e }
{}
