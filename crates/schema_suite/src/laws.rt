// What the definition says of the cases of the suite. This call does nothing.
ghost use Rattle.schema_suite.specs.Groups.{AreMet};
ghost use Rattle.schema_suite.specs.AdditionalProperties.{additional_properties_groups};
ghost use Rattle.schema_suite.specs.BooleanSchema.{boolean_schema_groups};
ghost use Rattle.schema_suite.specs.Default.{default_groups};
ghost use Rattle.schema_suite.specs.Enum.{enum_groups};
ghost use Rattle.schema_suite.specs.Items.{items_groups};
ghost use Rattle.schema_suite.specs.MaxItems.{max_items_groups};
ghost use Rattle.schema_suite.specs.MaxLength.{max_length_groups};
ghost use Rattle.schema_suite.specs.MaxProperties.{max_properties_groups};
ghost use Rattle.schema_suite.specs.Maximum.{maximum_groups};
ghost use Rattle.schema_suite.specs.MinItems.{min_items_groups};
ghost use Rattle.schema_suite.specs.MinLength.{min_length_groups};
ghost use Rattle.schema_suite.specs.MinProperties.{min_properties_groups};
ghost use Rattle.schema_suite.specs.Minimum.{minimum_groups};
ghost use Rattle.schema_suite.specs.OneOf.{one_of_groups};
ghost use Rattle.schema_suite.specs.Pattern.{pattern_groups};
ghost use Rattle.schema_suite.specs.Properties.{properties_groups};
ghost use Rattle.schema_suite.specs.PropertyNames.{property_names_groups};
ghost use Rattle.schema_suite.specs.Ref.{ref_groups};
ghost use Rattle.schema_suite.specs.Required.{required_groups};
ghost use Rattle.schema_suite.specs.Types.{type_groups};
ghost use Rattle.schema_suite.specs.UniqueItems.{unique_items_groups};

/// The definition says of each tree what the suite says, keyword by keyword.
pub fn suite_is_met()
    ensures additional_properties_groups { AreMet additional_properties_groups }
    ensures boolean_schema_groups { AreMet boolean_schema_groups }
    ensures default_groups { AreMet default_groups }
    ensures enum_groups { AreMet enum_groups }
    ensures items_groups { AreMet items_groups }
    ensures max_items_groups { AreMet max_items_groups }
    ensures max_length_groups { AreMet max_length_groups }
    ensures max_properties_groups { AreMet max_properties_groups }
    ensures maximum_groups { AreMet maximum_groups }
    ensures min_items_groups { AreMet min_items_groups }
    ensures min_length_groups { AreMet min_length_groups }
    ensures min_properties_groups { AreMet min_properties_groups }
    ensures minimum_groups { AreMet minimum_groups }
    ensures one_of_groups { AreMet one_of_groups }
    ensures pattern_groups { AreMet pattern_groups }
    ensures properties_groups { AreMet properties_groups }
    ensures property_names_groups { AreMet property_names_groups }
    ensures ref_groups { AreMet ref_groups }
    ensures required_groups { AreMet required_groups }
    ensures type_groups { AreMet type_groups }
    ensures unique_items_groups { AreMet unique_items_groups }
{}
