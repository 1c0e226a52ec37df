//! Worked examples of the definitions. No caller needs these functions: the check proves their
//! `ensures`.

ghost use Rattle.ssh_patterns.specs.Samples.{MatchingSamples, AddressSamples, NetSamples, ListSamples};

/// The answers of the definitions for some patterns, addresses, nets and lists.
fn read_samples()
    ensures matching { MatchingSamples }
    ensures addresses { AddressSamples }
    ensures nets { NetSamples }
    ensures lists { ListSamples }
{}
