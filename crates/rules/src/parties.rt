// Whose a label is: labels below 500,000 are ours, the rest theirs.
ghost use Rattle.std.specs.Prelude.{◌≡◌};
ghost use Rattle.rules.specs.Parties.{party_of, own_label};

pub fn party_of(label: u32) -> u32
    ensures { result ≡ party_of label }
{
    if label < 500_000 { 0 } else { 1 }
}

// The label that a call of a party means; 0, which is no label, for another party's.
pub fn own_label(party: u32, label: u32) -> u32
    ensures { result ≡ own_label party label }
{
    if party_of(label) == party { label } else { 0 }
}
