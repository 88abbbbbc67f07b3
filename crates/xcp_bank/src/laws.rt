// What the bank's rule says of every step, as clauses of functions that do nothing.
ghost use Rattle.xcp_bank.specs.Laws.{NotedLooksLook, ScansTellHolders};

/// A law of the bank's one history, for whatever step: this call does nothing, and its contract is the law.
pub fn one_history()
    ensures { NotedLooksLook }
{}

/// What a Scan tells of the readers that hold its buffer: this call does nothing, and its contract is the law.
pub fn scans_tell_holders()
    ensures { ScansTellHolders }
{}
