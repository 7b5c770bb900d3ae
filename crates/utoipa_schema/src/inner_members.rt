//! The members of a tree that may hold schemas.
ghost use Rattle.std.specs.Prelude.{◌≡◌, ◌||◌, is_some, string_bytes};
ghost use Rattle.serde_json.specs.View.{view};
ghost use Rattle.utoipa_schema.specs.Places.{data_of, members_of, with_member};

use serde_json::Value;

/// The members of a tree that may hold schemas, each if it is there.
#[derive(Drop)]
pub(crate) struct InnerMembers<'a> {
    /// The member `oneOf`, a list.
    pub(crate) one_of: Option<&'a Value>,
    /// The member `allOf`, a list.
    pub(crate) all_of: Option<&'a Value>,
    /// The member `anyOf`, a list.
    pub(crate) any_of: Option<&'a Value>,
    /// The member `items`.
    pub(crate) items: Option<&'a Value>,
    /// The member `prefixItems`, a list.
    pub(crate) prefix_items: Option<&'a Value>,
    /// The member `properties`, a map.
    pub(crate) properties: Option<&'a Value>,
    /// The member `additionalProperties`.
    pub(crate) additional_properties: Option<&'a Value>,
    /// The member `propertyNames`.
    pub(crate) property_names: Option<&'a Value>,
    /// The member `contentSchema`.
    pub(crate) content_schema: Option<&'a Value>,
}

/// Finds the members of a tree that may hold schemas, in one pass over all that it has.
pub(crate) fn find_members<'a>(tree: &'a Value) -> InnerMembers<'a>
    ensures { data_of result ≡ members_of (view tree.now) }
{
    let mut members = InnerMembers {
        one_of: None,
        all_of: None,
        any_of: None,
        items: None,
        prefix_items: None,
        properties: None,
        additional_properties: None,
        property_names: None,
        content_schema: None,
    };
    if let Some(map) = tree.as_object() {
        for (name, member) in map.iter() {
            members.note(name, member);
        }
    }
    members
}

impl<'a> InnerMembers<'a> {
    /// Notes a member, if it may hold schemas.
    fn note(&mut self, name: &String, member: &'a Value)
        ensures { data_of self.new ≡ with_member (string_bytes name.now) (view member.now) (data_of self.old) }
    {
        match name.as_str() {
            "oneOf" => self.one_of = Some(member),
            "allOf" => self.all_of = Some(member),
            "anyOf" => self.any_of = Some(member),
            "items" => self.items = Some(member),
            "prefixItems" => self.prefix_items = Some(member),
            "properties" => self.properties = Some(member),
            "additionalProperties" => self.additional_properties = Some(member),
            "propertyNames" => self.property_names = Some(member),
            "contentSchema" => self.content_schema = Some(member),
            _ => {}
        }
    }

    /// Whether one of the members is a combination.
    pub(crate) fn has_combination(&self) -> bool
        ensures { result ≡ (is_some self.now.one_of || (is_some self.now.all_of || is_some self.now.any_of)) }
    {
        self.one_of.is_some() || (self.all_of.is_some() || self.any_of.is_some())
    }

    /// Whether one of the members is that of the items of an array.
    pub(crate) fn has_items(&self) -> bool
        ensures { result ≡ is_some self.now.items }
    {
        self.items.is_some()
    }
}
