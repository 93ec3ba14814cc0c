//! When a value is read as one of its type.
ghost use Rattle.std.specs.Prelude.{ℕ};
ghost use Rattle.json_fields.specs.Reading.{text_of, bool_of, labels_of, number_in};
ghost use Rattle.kube_model.specs.Named.{protocol_of, policy_of};
ghost use Rattle.kube_events.specs.Frame.{bytes_of};
ghost use Rattle.kube_events.specs.Named.{family_of, version_of, address_in};
ghost use Rattle.field_laws.specs.FieldLaws.{IsReadWhere, IsText, IsTruth, IsNumber, IsTextMap};
ghost use Rattle.field_laws.specs.FieldLaws.{IsTextOf, SaysFamily};
ghost use Rattle.field_laws.specs.FieldLaws.{SaysProtocol, SaysPolicy, SaysVersion, SaysAddress};
ghost use Rattle.field_laws.specs.FieldLaws.{SaysBytes};

/// A text, `true` or `false`, and a map of texts are read exactly where they stand there, and else
/// refused at their place.
pub fn values_are_read()
    ensures text { IsReadWhere text_of IsText }
    ensures truth { IsReadWhere bool_of IsTruth }
    ensures text_map { IsReadWhere labels_of IsTextMap }
{}

/// A number is read exactly where it is whole and in its range.
pub fn numbers_are_read()
    ensures { (low high : ℕ) → IsReadWhere (number_in low high) (IsNumber low high) }
{}

/// A text that says something is read exactly where it says it.
pub fn texts_are_read()
    ensures family { IsReadWhere family_of (IsTextOf SaysFamily) }
    ensures protocol { IsReadWhere protocol_of (IsTextOf SaysProtocol) }
    ensures policy { IsReadWhere policy_of (IsTextOf SaysPolicy) }
    ensures version { IsReadWhere version_of (IsTextOf SaysVersion) }
    ensures address { IsReadWhere address_in (IsTextOf SaysAddress) }
    ensures hex { IsReadWhere bytes_of (IsTextOf SaysBytes) }
{}
