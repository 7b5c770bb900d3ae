//! How a property is written in XML.
ghost use Rattle.std.specs.Prelude.{◌≡◌, ◌↔◌, IsTrue};
ghost use Rattle.utoipa_base.specs.Kinds.{named, xml_object};
ghost use Rattle.utoipa_schema_parts.specs.Xml.{xml_doc};
ghost use Rattle.utoipa_schema_parts.specs.contracts.xml.XmlPartialEq.TheImpl as derived;

use serde_json::Value;
use std::alloc::{AllocError, Global};
use utoipa_base::{
    Documented, Emit, JsonSink, Place, ReadFault, Readings, Tree, clone_table_alone, emit_table,
    from_fields_alone, read_table_alone, row_names, row_values,
};

// The rows of an XML object, in the order of the members' names: mark, member, field.
macro_rules! xml_rows {
    ($lines:ident!($($arguments:tt)*)) => {
        $lines! {
            $($arguments)*;
            optional "attribute" attribute,
            optional "name" name,
            optional "namespace" namespace,
            optional "nodeType" node_type,
            optional "prefix" prefix,
            optional "wrapped" wrapped,
        }
    };
}

/// An XML Object (OpenAPI 3.1, section 4.8.26): how a property is written in XML.
#[derive(Debug, Default, Drop, Eq, PartialEq)]
pub struct Xml {
    /// Whether the property is written as an attribute, in place of an element.
    pub attribute: Option<bool>,
    /// The name of the element or the attribute, in place of the property's name.
    pub name: Option<String>,
    /// An IRI of the namespace.
    pub namespace: Option<String>,
    /// The kind of XML node that the property is written as, from OpenAPI 3.2 on: the member `nodeType`.
    pub node_type: Option<String>,
    /// The prefix of the name.
    pub prefix: Option<String>,
    /// Whether the items of an array stand in an element of their own.
    pub wrapped: Option<bool>,
}

impl Xml {
    ghost use Rattle.utoipa_schema_parts.specs.Xml.{empty_xml, built_xml};

    /// An XML object that says nothing. It is written `{}`.
    pub fn new() -> Xml
        ensures { result ≡ empty_xml }
    {
        Xml {
            attribute: None,
            name: None,
            namespace: None,
            node_type: None,
            prefix: None,
            wrapped: None,
        }
    }

    /// A builder that begins with an XML object that says nothing.
    pub fn builder() -> XmlBuilder
        ensures { built_xml result ≡ empty_xml }
    {
        XmlBuilder::new()
    }
}

impl Documented for Xml {
    ghost use Rattle.utoipa_schema_parts.specs.Xml.{xml_doc};

    ghost kind = { named xml_object };

    ghost doc = { xml_doc };
}

impl Emit for Xml {
    fn emit<S: JsonSink>(&self, out: &mut S) -> Result<(), AllocError> {
        let names = xml_rows!(row_names!());
        let values = xml_rows!(row_values!(self));
        emit_table(out, names, &values, &None)
    }
}

impl Tree for Xml {
    ghost use Rattle.utoipa_schema_parts.specs.Xml.{xml_of_kind};

    ghost is_of_kind = { xml_of_kind };

    fn read_plain(alloc: Global, tree: &Value, readings: &mut Readings) -> Result<Xml, ReadFault> {
        let names = xml_rows!(row_names!());
        let fields = read_table_alone(alloc, tree, "Xml", names, readings)?;
        Ok(xml_rows!(from_fields_alone!(Xml, fields)))
    }

    fn try_clone(&self, alloc: Global) -> Result<Xml, AllocError> {
        xml_rows!(clone_table_alone!(Xml, self, alloc))
    }
}

impl Place for Xml {
    fn is_schema() -> bool {
        false
    }
}

/// Builds an [`Xml`].
#[derive(Debug, Default, Drop)]
pub struct XmlBuilder {
    xml: Xml,
}

impl XmlBuilder {
    ghost use Rattle.utoipa_schema_parts.specs.Xml.{empty_xml, built_xml};

    /// Begins with an XML object that says nothing.
    pub fn new() -> XmlBuilder
        ensures { built_xml result ≡ empty_xml }
    {
        XmlBuilder { xml: Xml::new() }
    }

    /// Sets the name of the element or the attribute.
    pub fn name(mut self, name: Option<String>) -> XmlBuilder
        ensures { built_xml result ≡ record (built_xml self) { name = name } }
    {
        self.xml.name = name;
        self
    }

    /// Sets the IRI of the namespace.
    pub fn namespace(mut self, namespace: Option<String>) -> XmlBuilder
        ensures { built_xml result ≡ record (built_xml self) { namespace = namespace } }
    {
        self.xml.namespace = namespace;
        self
    }

    /// Sets the prefix of the name.
    pub fn prefix(mut self, prefix: Option<String>) -> XmlBuilder
        ensures { built_xml result ≡ record (built_xml self) { prefix = prefix } }
    {
        self.xml.prefix = prefix;
        self
    }

    /// Sets the kind of XML node.
    pub fn node_type(mut self, node_type: Option<String>) -> XmlBuilder
        ensures { built_xml result ≡ record (built_xml self) { node_type = node_type } }
    {
        self.xml.node_type = node_type;
        self
    }

    /// Sets whether the property is written as an attribute.
    pub fn attribute(mut self, attribute: Option<bool>) -> XmlBuilder
        ensures { built_xml result ≡ record (built_xml self) { attribute = attribute } }
    {
        self.xml.attribute = attribute;
        self
    }

    /// Sets whether the items of an array stand in an element of their own.
    pub fn wrapped(mut self, wrapped: Option<bool>) -> XmlBuilder
        ensures { built_xml result ≡ record (built_xml self) { wrapped = wrapped } }
    {
        self.xml.wrapped = wrapped;
        self
    }

    /// The XML object that was built.
    pub fn build(self) -> Xml
        ensures { result ≡ built_xml self }
    {
        self.xml
    }
}

impl From<Xml> for XmlBuilder {
    ghost use Rattle.utoipa_schema_parts.specs.Xml.{built_xml};

    ghost from_gives = { λ xml builder. built_xml builder ≡ xml };

    fn from(xml: Xml) -> XmlBuilder {
        XmlBuilder { xml }
    }
}

impl From<XmlBuilder> for Xml {
    ghost use Rattle.utoipa_schema_parts.specs.Xml.{built_xml};

    ghost from_gives = { λ builder xml. xml ≡ built_xml builder };

    fn from(builder: XmlBuilder) -> Xml {
        builder.build()
    }
}

/// `==` is equality: it holds exactly where two XML objects are one document.
///
/// A caller learns the law by the call, which does nothing.
pub fn equal_as_documents(left: &Xml, right: &Xml)
    ensures { IsTrue (derived.ghosts.eq left.now right.now) ↔ (xml_doc left.now ≡ xml_doc right.now) }
{}
