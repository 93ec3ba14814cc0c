//! What digests of nodes and addresses are.
ghost use Rattle.election_laws.specs.Vectors.{BeforeByItsFifthOctet, DigestOfIpv4, DigestOfIpv6};

/// The digests of a node for an address of each family are those that were computed elsewhere (FIPS
/// 180-4). Of two nodes whose digests agree in four octets the one with the lesser fifth comes
/// first, though its name is the greater.
pub fn digests_are_those_written_out()
    ensures four { DigestOfIpv4 }
    ensures six { DigestOfIpv6 }
    ensures order { BeforeByItsFifthOctet }
{}
