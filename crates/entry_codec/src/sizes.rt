// How many bytes the spellings have (docs/FORMATS.md, "Entries" and "Bytes of configurations").
ghost use Rattle.std.specs.Prelude.{◌≡◌, ◌≤◌, length};
ghost use Rattle.bank_books.specs.declared.entries.BankEntry.{BankEntry as OfBank};
ghost use Rattle.bank_books.specs.declared.entries.BankOpening.{BankOpening as Opening};
ghost use Rattle.bank_books.specs.Openings.{IsBankOpening};
ghost use Rattle.host_ledger.specs.declared.config.Config.{Config as Sound};
ghost use Rattle.host_ledger.specs.declared.entries.Entry.{Entry as Value};
ghost use Rattle.host_ledger.specs.Ranges.{IsEntry};
ghost use Rattle.host_ledger.specs.Soundness.{IsConfig};
ghost use Rattle.entry_codec.specs.BankRanges.{IsBankEntry};
ghost use Rattle.entry_codec.specs.BankSizes.{bank_opening_size, bank_entry_size, shortest_bank_entry, longest_bank_entry};
ghost use Rattle.entry_codec.specs.BankSpelling.{bank_opening_bytes, bank_entry_bytes};
ghost use Rattle.entry_codec.specs.Config.{config_bytes};
ghost use Rattle.entry_codec.specs.Sizes.{entry_size, shortest_entry, longest_entry, config_size, longest_config};
ghost use Rattle.entry_codec.specs.Spelling.{entry_bytes};

/// The spelling of an entry has 9 to 4,302 bytes. So it isn't empty, and it is a payload that a journal takes.
pub fn entry_is_a_payload()
    ensures size { (entry : Value) → IsEntry entry → length (entry_bytes entry) ≡ entry_size entry }
    ensures bounds { (entry : Value) → IsEntry entry → (shortest_entry ≤ length (entry_bytes entry)) × (length (entry_bytes entry) ≤ longest_entry) }
{}

/// The spelling of a configuration has 12 bytes and 33 for each account, so 33,804 at most. So it is a payload that a
/// journal takes.
pub fn config_is_a_payload()
    ensures size { (config : Sound) → IsConfig config → length (config_bytes config) ≡ config_size (length config.accounts) }
    ensures most { (config : Sound) → IsConfig config → length (config_bytes config) ≤ longest_config }
{}

/// The spelling of a bank's opening has 14 bytes. So it is a payload that a journal takes.
pub fn bank_opening_is_a_payload()
    ensures { (opening : Opening) → IsBankOpening opening → length (bank_opening_bytes opening) ≡ bank_opening_size }
{}

/// The spelling of a bank's entry has 12 to 4,250 bytes. So it isn't empty, and it is a payload that a journal takes.
pub fn bank_entry_is_a_payload()
    ensures size { (entry : OfBank) → IsBankEntry entry → length (bank_entry_bytes entry) ≡ bank_entry_size entry }
    ensures bounds { (entry : OfBank) → IsBankEntry entry → (shortest_bank_entry ≤ length (bank_entry_bytes entry)) × (length (bank_entry_bytes entry) ≤ longest_bank_entry) }
{}
