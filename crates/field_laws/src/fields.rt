//! When a field and when a list is read.
ghost use Rattle.std.specs.Prelude.{ℕ};
ghost use Rattle.json_fields.specs.Reading.{text_of, bool_of, labels_of, list_of, number_in};
ghost use Rattle.json_fields.specs.Expressions.{expression_of};
ghost use Rattle.kube_model.specs.AllocationFields.{allocation_of};
ghost use Rattle.kube_model.specs.EndpointFields.{endpoint_of};
ghost use Rattle.kube_model.specs.Named.{protocol_of, policy_of};
ghost use Rattle.kube_model.specs.PortFields.{port_of};
ghost use Rattle.kube_model.specs.SelectorFields.{selector_of};
ghost use Rattle.kube_events.specs.CommunityFields.{named_value_of};
ghost use Rattle.kube_events.specs.Frame.{bytes_of};
ghost use Rattle.kube_events.specs.Named.{family_of, version_of, address_in};
ghost use Rattle.kube_events.specs.ServiceFields.{ingress_of};
ghost use Rattle.field_laws.specs.FieldLaws.{FieldsAreRead, ListsAreRead};

/// A field is read by what stands at its path alone: a required one exactly where a value of the
/// type stands there, one that may be absent also where nothing does, and else it is refused, at
/// its path or from there on.
pub fn fields_are_read()
    ensures text { FieldsAreRead text_of }
    ensures truth { FieldsAreRead bool_of }
    ensures number { (low high : ℕ) → FieldsAreRead (number_in low high) }
    ensures text_map { FieldsAreRead labels_of }
    ensures version { FieldsAreRead version_of }
    ensures address { FieldsAreRead address_in }
    ensures hex { FieldsAreRead bytes_of }
    ensures protocol { FieldsAreRead protocol_of }
    ensures policy { FieldsAreRead policy_of }
    ensures allocation { FieldsAreRead allocation_of }
    ensures texts { FieldsAreRead (list_of text_of) }
    ensures families { FieldsAreRead (list_of family_of) }
    ensures selectors { FieldsAreRead (list_of selector_of) }
    ensures expressions { FieldsAreRead (list_of expression_of) }
    ensures ports { FieldsAreRead (list_of port_of) }
    ensures places { FieldsAreRead (list_of ingress_of) }
    ensures named_values { FieldsAreRead (list_of named_value_of) }
    ensures endpoints { FieldsAreRead (list_of endpoint_of) }
{}

/// A list is read exactly where each of its items is, and else the first that isn't is refused, by
/// its place.
pub fn lists_are_read()
    ensures texts { ListsAreRead text_of }
    ensures families { ListsAreRead family_of }
    ensures selectors { ListsAreRead selector_of }
    ensures expressions { ListsAreRead expression_of }
    ensures ports { ListsAreRead port_of }
    ensures places { ListsAreRead ingress_of }
    ensures named_values { ListsAreRead named_value_of }
    ensures endpoints { ListsAreRead endpoint_of }
{}
