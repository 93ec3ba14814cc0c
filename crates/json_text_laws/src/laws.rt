//! What holds of the texts in every value.
ghost use Rattle.json_text_laws.specs.Texts.{ValuesHaveTexts, TextMapsAreLabels};

/// Every string and every member name of the value of a line is UTF-8.
pub fn values_have_texts()
    ensures { ValuesHaveTexts }
{}

/// The pairs of a text map are UTF-8, and their names ascend.
pub fn text_maps_are_labels()
    ensures { TextMapsAreLabels }
{}
