//! What is said of an API as a whole, with its contact and its license.
ghost use Rattle.std.specs.Prelude.{◌≡◌, [], string_bytes};
ghost use Rattle.utoipa_base.specs.Kinds.{named, info_object, contact_object, license_object};

use serde_json::Value;
use std::alloc::{AllocError, Global};
use utoipa_base::{
    Documented, Emit, Extensions, JsonSink, Place, ReadFault, Readings, Tree, clone_table,
    emit_table, from_fields, read_table, row_names, row_values,
};

// The rows of an info object, in the order of the members' names: mark, member, field.
macro_rules! info_rows {
    ($lines:ident!($($arguments:tt)*)) => {
        $lines! {
            $($arguments)*;
            optional "contact" contact,
            optional "description" description,
            optional "license" license,
            optional "termsOfService" terms_of_service,
            required "title" title,
            required "version" version,
        }
    };
}

/// An Info Object (OpenAPI 3.1, section 4.8.2): metadata about the API.
#[derive(Debug, Drop)]
pub struct Info {
    /// The title of the API.
    pub title: String,
    /// A description of the API, in CommonMark.
    pub description: Option<String>,
    /// A URI of the terms of service: the member `termsOfService`.
    pub terms_of_service: Option<String>,
    /// Whom to ask about the API.
    pub contact: Option<Contact>,
    /// The license of the API.
    pub license: Option<License>,
    /// The version of the document, which is neither that of the standard nor that of a program behind the API.
    pub version: String,
    /// Specification extensions.
    pub extensions: Option<Extensions>,
}

// The rows of a contact, in the order of the members' names: mark, member, field.
macro_rules! contact_rows {
    ($lines:ident!($($arguments:tt)*)) => {
        $lines! {
            $($arguments)*;
            optional "email" email,
            optional "name" name,
            optional "url" url,
        }
    };
}

/// A Contact Object (OpenAPI 3.1, section 4.8.3): whom to ask about an API.
#[derive(Debug, Default, Drop)]
pub struct Contact {
    /// The name of the person or the organization.
    pub name: Option<String>,
    /// A URI for the contact.
    pub url: Option<String>,
    /// The email address of the person or the organization.
    pub email: Option<String>,
    /// Specification extensions.
    pub extensions: Option<Extensions>,
}

// The rows of a license, in the order of the members' names: mark, member, field.
macro_rules! license_rows {
    ($lines:ident!($($arguments:tt)*)) => {
        $lines! {
            $($arguments)*;
            optional "identifier" identifier,
            required "name" name,
            optional "url" url,
        }
    };
}

/// A License Object (OpenAPI 3.1, section 4.8.4): the license of an API.
#[derive(Debug, Drop)]
pub struct License {
    /// The name of the license.
    pub name: String,
    /// A URI of the license's text. It excludes `identifier`.
    pub url: Option<String>,
    /// An SPDX expression of the license. It excludes `url`.
    pub identifier: Option<String>,
    /// Specification extensions.
    pub extensions: Option<Extensions>,
}

impl Info {
    ghost use Rattle.utoipa_leaf.specs.Info.{empty_info, built_info};

    /// An info object of a title and a version, with nothing else. Takes no memory.
    pub fn new(title: String, version: String) -> Info
        ensures { result ≡ empty_info title version }
    {
        Info {
            title,
            description: None,
            terms_of_service: None,
            contact: None,
            license: None,
            version,
            extensions: None,
        }
    }

    /// A builder that begins with an empty title and an empty version. Takes no memory.
    pub fn builder(alloc: Global) -> InfoBuilder
        ensures { (title : _) × (version : _) × (string_bytes title ≡ []) × (string_bytes version ≡ [])
            × (built_info result ≡ empty_info title version) }
    {
        InfoBuilder::new(alloc)
    }
}

impl Contact {
    ghost use Rattle.utoipa_leaf.specs.Info.{empty_contact, built_contact};

    /// A contact of whom nothing is said. It is written `{}`.
    pub fn new() -> Contact
        ensures { result ≡ empty_contact }
    {
        Contact {
            name: None,
            url: None,
            email: None,
            extensions: None,
        }
    }

    /// A builder that begins with a contact of whom nothing is said.
    pub fn builder() -> ContactBuilder
        ensures { built_contact result ≡ empty_contact }
    {
        ContactBuilder::new()
    }
}

impl License {
    ghost use Rattle.utoipa_leaf.specs.Info.{empty_license, built_license};

    /// A license of a name, with nothing else. Takes no memory.
    pub fn new(name: String) -> License
        ensures { result ≡ empty_license name }
    {
        License {
            name,
            url: None,
            identifier: None,
            extensions: None,
        }
    }

    /// A builder that begins with a license of the empty name. Takes no memory.
    pub fn builder(alloc: Global) -> LicenseBuilder
        ensures { (name : _) × (string_bytes name ≡ []) × (built_license result ≡ empty_license name) }
    {
        LicenseBuilder::new(alloc)
    }
}

impl Documented for Contact {
    ghost use Rattle.utoipa_leaf.specs.Info.{contact_doc};

    ghost kind = { named contact_object };

    ghost doc = { contact_doc };
}

impl Emit for Contact {
    fn emit<S: JsonSink>(&self, out: &mut S) -> Result<(), AllocError> {
        let names = contact_rows!(row_names!());
        let values = contact_rows!(row_values!(self));
        emit_table(out, names, &values, &self.extensions)
    }
}

impl Tree for Contact {
    ghost use Rattle.utoipa_leaf.specs.Info.{contact_of_kind};

    ghost is_of_kind = { contact_of_kind };

    fn read_plain(
        alloc: Global,
        tree: &Value,
        readings: &mut Readings,
    ) -> Result<Contact, ReadFault> {
        let names = contact_rows!(row_names!());
        let (fields, extensions) = read_table(alloc, tree, "Contact", names, readings)?;
        Ok(contact_rows!(from_fields!(Contact, fields, extensions)))
    }

    fn try_clone(&self, alloc: Global) -> Result<Contact, AllocError> {
        contact_rows!(clone_table!(Contact, self, alloc))
    }
}

impl Place for Contact {
    fn is_schema() -> bool {
        false
    }
}

impl Documented for License {
    ghost use Rattle.utoipa_leaf.specs.Info.{license_doc};

    ghost kind = { named license_object };

    ghost doc = { license_doc };
}

impl Emit for License {
    fn emit<S: JsonSink>(&self, out: &mut S) -> Result<(), AllocError> {
        let names = license_rows!(row_names!());
        let values = license_rows!(row_values!(self));
        emit_table(out, names, &values, &self.extensions)
    }
}

impl Tree for License {
    ghost use Rattle.utoipa_leaf.specs.Info.{license_of_kind};

    ghost is_of_kind = { license_of_kind };

    fn read_plain(
        alloc: Global,
        tree: &Value,
        readings: &mut Readings,
    ) -> Result<License, ReadFault> {
        let names = license_rows!(row_names!());
        let (fields, extensions) = read_table(alloc, tree, "License", names, readings)?;
        Ok(license_rows!(from_fields!(License, fields, extensions)))
    }

    fn try_clone(&self, alloc: Global) -> Result<License, AllocError> {
        license_rows!(clone_table!(License, self, alloc))
    }
}

impl Place for License {
    fn is_schema() -> bool {
        false
    }
}

impl Documented for Info {
    ghost use Rattle.utoipa_leaf.specs.Info.{info_doc};

    ghost kind = { named info_object };

    ghost doc = { info_doc };
}

impl Emit for Info {
    fn emit<S: JsonSink>(&self, out: &mut S) -> Result<(), AllocError> {
        let names = info_rows!(row_names!());
        let values = info_rows!(row_values!(self));
        emit_table(out, names, &values, &self.extensions)
    }
}

impl Tree for Info {
    ghost use Rattle.utoipa_leaf.specs.Info.{info_of_kind};

    ghost is_of_kind = { info_of_kind };

    fn read_plain(alloc: Global, tree: &Value, readings: &mut Readings) -> Result<Info, ReadFault> {
        let names = info_rows!(row_names!());
        let (fields, extensions) = read_table(alloc, tree, "Info", names, readings)?;
        Ok(info_rows!(from_fields!(Info, fields, extensions)))
    }

    fn try_clone(&self, alloc: Global) -> Result<Info, AllocError> {
        info_rows!(clone_table!(Info, self, alloc))
    }
}

impl Place for Info {
    fn is_schema() -> bool {
        false
    }
}

/// Builds an [`Info`].
#[derive(Debug, Drop)]
pub struct InfoBuilder {
    info: Info,
}

impl InfoBuilder {
    ghost use Rattle.utoipa_leaf.specs.Info.{empty_info, built_info};

    /// Begins with an empty title and an empty version, with nothing else. Takes no memory.
    pub fn new(alloc: Global) -> InfoBuilder
        ensures { (title : _) × (version : _) × (string_bytes title ≡ []) × (string_bytes version ≡ [])
            × (built_info result ≡ empty_info title version) }
    {
        InfoBuilder {
            info: Info::new(String::new(alloc), String::new(alloc)),
        }
    }

    /// Sets the title.
    pub fn title(mut self, title: String) -> InfoBuilder
        ensures { built_info result ≡ record (built_info self) { title = title } }
    {
        self.info.title = title;
        self
    }

    /// Sets the description.
    pub fn description(mut self, description: Option<String>) -> InfoBuilder
        ensures { built_info result ≡ record (built_info self) { description = description } }
    {
        self.info.description = description;
        self
    }

    /// Sets the URI of the terms of service.
    pub fn terms_of_service(mut self, terms_of_service: Option<String>) -> InfoBuilder
        ensures { built_info result ≡ record (built_info self) { terms_of_service = terms_of_service } }
    {
        self.info.terms_of_service = terms_of_service;
        self
    }

    /// Sets whom to ask about the API.
    pub fn contact(mut self, contact: Option<Contact>) -> InfoBuilder
        ensures { built_info result ≡ record (built_info self) { contact = contact } }
    {
        self.info.contact = contact;
        self
    }

    /// Sets the license.
    pub fn license(mut self, license: Option<License>) -> InfoBuilder
        ensures { built_info result ≡ record (built_info self) { license = license } }
    {
        self.info.license = license;
        self
    }

    /// Sets the version of the document.
    pub fn version(mut self, version: String) -> InfoBuilder
        ensures { built_info result ≡ record (built_info self) { version = version } }
    {
        self.info.version = version;
        self
    }

    /// Sets the specification extensions.
    pub fn extensions(mut self, extensions: Option<Extensions>) -> InfoBuilder
        ensures { built_info result ≡ record (built_info self) { extensions = extensions } }
    {
        self.info.extensions = extensions;
        self
    }

    /// The info object that was built.
    pub fn build(self) -> Info
        ensures { result ≡ built_info self }
    {
        self.info
    }
}

impl From<Info> for InfoBuilder {
    ghost use Rattle.utoipa_leaf.specs.Info.{built_info};

    ghost from_gives = { λ info builder. built_info builder ≡ info };

    fn from(info: Info) -> InfoBuilder {
        InfoBuilder { info }
    }
}

impl From<InfoBuilder> for Info {
    ghost use Rattle.utoipa_leaf.specs.Info.{built_info};

    ghost from_gives = { λ builder info. info ≡ built_info builder };

    fn from(builder: InfoBuilder) -> Info {
        builder.build()
    }
}

/// Builds a [`Contact`].
#[derive(Debug, Default, Drop)]
pub struct ContactBuilder {
    contact: Contact,
}

impl ContactBuilder {
    ghost use Rattle.utoipa_leaf.specs.Info.{empty_contact, built_contact};

    /// Begins with a contact of whom nothing is said.
    pub fn new() -> ContactBuilder
        ensures { built_contact result ≡ empty_contact }
    {
        ContactBuilder {
            contact: Contact::new(),
        }
    }

    /// Sets the name.
    pub fn name(mut self, name: Option<String>) -> ContactBuilder
        ensures { built_contact result ≡ record (built_contact self) { name = name } }
    {
        self.contact.name = name;
        self
    }

    /// Sets the URI.
    pub fn url(mut self, url: Option<String>) -> ContactBuilder
        ensures { built_contact result ≡ record (built_contact self) { url = url } }
    {
        self.contact.url = url;
        self
    }

    /// Sets the email address.
    pub fn email(mut self, email: Option<String>) -> ContactBuilder
        ensures { built_contact result ≡ record (built_contact self) { email = email } }
    {
        self.contact.email = email;
        self
    }

    /// Sets the specification extensions.
    pub fn extensions(mut self, extensions: Option<Extensions>) -> ContactBuilder
        ensures { built_contact result ≡ record (built_contact self) { extensions = extensions } }
    {
        self.contact.extensions = extensions;
        self
    }

    /// The contact that was built.
    pub fn build(self) -> Contact
        ensures { result ≡ built_contact self }
    {
        self.contact
    }
}

impl From<Contact> for ContactBuilder {
    ghost use Rattle.utoipa_leaf.specs.Info.{built_contact};

    ghost from_gives = { λ contact builder. built_contact builder ≡ contact };

    fn from(contact: Contact) -> ContactBuilder {
        ContactBuilder { contact }
    }
}

impl From<ContactBuilder> for Contact {
    ghost use Rattle.utoipa_leaf.specs.Info.{built_contact};

    ghost from_gives = { λ builder contact. contact ≡ built_contact builder };

    fn from(builder: ContactBuilder) -> Contact {
        builder.build()
    }
}

/// Builds a [`License`].
#[derive(Debug, Drop)]
pub struct LicenseBuilder {
    license: License,
}

impl LicenseBuilder {
    ghost use Rattle.utoipa_leaf.specs.Info.{empty_license, built_license};

    /// Begins with a license of the empty name, with nothing else. Takes no memory.
    pub fn new(alloc: Global) -> LicenseBuilder
        ensures { (name : _) × (string_bytes name ≡ []) × (built_license result ≡ empty_license name) }
    {
        LicenseBuilder {
            license: License::new(String::new(alloc)),
        }
    }

    /// Sets the name.
    pub fn name(mut self, name: String) -> LicenseBuilder
        ensures { built_license result ≡ record (built_license self) { name = name } }
    {
        self.license.name = name;
        self
    }

    /// Sets the URI of the license's text.
    pub fn url(mut self, url: Option<String>) -> LicenseBuilder
        ensures { built_license result ≡ record (built_license self) { url = url } }
    {
        self.license.url = url;
        self
    }

    /// Sets the SPDX expression.
    pub fn identifier(mut self, identifier: Option<String>) -> LicenseBuilder
        ensures { built_license result ≡ record (built_license self) { identifier = identifier } }
    {
        self.license.identifier = identifier;
        self
    }

    /// Sets the specification extensions.
    pub fn extensions(mut self, extensions: Option<Extensions>) -> LicenseBuilder
        ensures { built_license result ≡ record (built_license self) { extensions = extensions } }
    {
        self.license.extensions = extensions;
        self
    }

    /// The license that was built.
    pub fn build(self) -> License
        ensures { result ≡ built_license self }
    {
        self.license
    }
}

impl From<License> for LicenseBuilder {
    ghost use Rattle.utoipa_leaf.specs.Info.{built_license};

    ghost from_gives = { λ license builder. built_license builder ≡ license };

    fn from(license: License) -> LicenseBuilder {
        LicenseBuilder { license }
    }
}

impl From<LicenseBuilder> for License {
    ghost use Rattle.utoipa_leaf.specs.Info.{built_license};

    ghost from_gives = { λ builder license. license ≡ built_license builder };

    fn from(builder: LicenseBuilder) -> License {
        builder.build()
    }
}
