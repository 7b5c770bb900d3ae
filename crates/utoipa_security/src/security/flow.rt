//! The flows of OAuth, each with its own URLs.
ghost use Rattle.std.specs.Prelude.{◌≡◌, None, Some};
ghost use Rattle.utoipa_base.specs.Kinds.{named, implicit_flow, password_flow, client_credentials_flow, authorization_code_flow, device_authorization_flow};

use crate::security::row_lists::{clone_table, from_fields, row_values};
use crate::security::scopes::Scopes;
use serde_json::Value;
use std::alloc::{AllocError, Global};
use utoipa_base::{
    Documented, Emit, Extensions, JsonSink, Place, ReadFault, Readings, Tree, emit_table,
    read_table, row_names,
};

// The rows of the implicit flow, in the order of the members' names: mark, member, field.
macro_rules! implicit_rows {
    ($lines:ident!($($arguments:tt)*)) => {
        $lines! {
            $($arguments)*;
            required "authorizationUrl" authorization_url,
            optional "refreshUrl" refresh_url,
            scopes "scopes" scopes,
        }
    };
}

/// An OAuth Flow Object (OpenAPI 3.1, section 4.8.29) under `implicit`: the implicit flow.
#[derive(Debug, Drop)]
pub struct Implicit {
    /// The URL where the resource owner grants access: the member `authorizationUrl`.
    pub authorization_url: String,
    /// The URL where tokens are renewed: the member `refreshUrl`.
    pub refresh_url: Option<String>,
    /// The scopes that the flow can grant.
    pub scopes: Scopes,
    /// Specification extensions.
    pub extensions: Option<Extensions>,
}

impl Implicit {
    ghost use Rattle.utoipa_security.specs.Flows.{made_implicit};

    /// A flow with its URL and scopes, and nothing else.
    pub fn new(authorization_url: String, scopes: Scopes) -> Implicit
        ensures { result ≡ made_implicit authorization_url None scopes }
    {
        Implicit {
            authorization_url,
            refresh_url: None,
            scopes,
            extensions: None,
        }
    }

    /// A flow with its URL and scopes, and the URL where tokens are renewed.
    pub fn with_refresh_url(
        authorization_url: String,
        scopes: Scopes,
        refresh_url: String,
    ) -> Implicit
        ensures { result ≡ made_implicit authorization_url (Some refresh_url) scopes }
    {
        Implicit {
            authorization_url,
            refresh_url: Some(refresh_url),
            scopes,
            extensions: None,
        }
    }
}

impl Documented for Implicit {
    ghost use Rattle.utoipa_security.specs.Flows.{implicit_doc};

    ghost kind = { named implicit_flow };

    ghost doc = { implicit_doc };
}

impl Emit for Implicit {
    fn emit<S: JsonSink>(&self, out: &mut S) -> Result<(), AllocError> {
        emit_table(
            out,
            implicit_rows!(row_names!()),
            &implicit_rows!(row_values!(self)),
            &self.extensions,
        )
    }
}

impl Tree for Implicit {
    ghost use Rattle.utoipa_security.specs.Flows.{implicit_of_kind};

    ghost is_of_kind = { implicit_of_kind };

    fn read_plain(
        alloc: Global,
        tree: &Value,
        readings: &mut Readings,
    ) -> Result<Implicit, ReadFault> {
        let names = implicit_rows!(row_names!());
        let (fields, extensions) = read_table(alloc, tree, "Implicit", names, readings)?;
        Ok(implicit_rows!(from_fields!(Implicit, fields, extensions)))
    }

    fn try_clone(&self, alloc: Global) -> Result<Implicit, AllocError> {
        implicit_rows!(clone_table!(Implicit, self, alloc))
    }
}

impl Place for Implicit {
    fn is_schema() -> bool {
        false
    }
}

// The rows of the flow by password, in the order of the members' names: mark, member, field.
macro_rules! password_rows {
    ($lines:ident!($($arguments:tt)*)) => {
        $lines! {
            $($arguments)*;
            optional "refreshUrl" refresh_url,
            scopes "scopes" scopes,
            required "tokenUrl" token_url,
        }
    };
}

/// An OAuth Flow Object (OpenAPI 3.1, section 4.8.29) under `password`: the flow by the password of the resource owner.
#[derive(Debug, Drop)]
pub struct Password {
    /// The URL where tokens are handed out: the member `tokenUrl`.
    pub token_url: String,
    /// The URL where tokens are renewed: the member `refreshUrl`.
    pub refresh_url: Option<String>,
    /// The scopes that the flow can grant.
    pub scopes: Scopes,
    /// Specification extensions.
    pub extensions: Option<Extensions>,
}

impl Password {
    ghost use Rattle.utoipa_security.specs.Flows.{made_password};

    /// A flow with its URL and scopes, and nothing else.
    pub fn new(token_url: String, scopes: Scopes) -> Password
        ensures { result ≡ made_password token_url None scopes }
    {
        Password {
            token_url,
            refresh_url: None,
            scopes,
            extensions: None,
        }
    }

    /// A flow with its URL and scopes, and the URL where tokens are renewed.
    pub fn with_refresh_url(token_url: String, scopes: Scopes, refresh_url: String) -> Password
        ensures { result ≡ made_password token_url (Some refresh_url) scopes }
    {
        Password {
            token_url,
            refresh_url: Some(refresh_url),
            scopes,
            extensions: None,
        }
    }
}

impl Documented for Password {
    ghost use Rattle.utoipa_security.specs.Flows.{password_doc};

    ghost kind = { named password_flow };

    ghost doc = { password_doc };
}

impl Emit for Password {
    fn emit<S: JsonSink>(&self, out: &mut S) -> Result<(), AllocError> {
        let names = password_rows!(row_names!());
        let values = password_rows!(row_values!(self));
        emit_table(out, names, &values, &self.extensions)
    }
}

impl Tree for Password {
    ghost use Rattle.utoipa_security.specs.Flows.{password_of_kind};

    ghost is_of_kind = { password_of_kind };

    fn read_plain(
        alloc: Global,
        tree: &Value,
        readings: &mut Readings,
    ) -> Result<Password, ReadFault> {
        let names = password_rows!(row_names!());
        let (fields, extensions) = read_table(alloc, tree, "Password", names, readings)?;
        Ok(password_rows!(from_fields!(Password, fields, extensions)))
    }

    fn try_clone(&self, alloc: Global) -> Result<Password, AllocError> {
        password_rows!(clone_table!(Password, self, alloc))
    }
}

impl Place for Password {
    fn is_schema() -> bool {
        false
    }
}

// The rows of the flow by the client's credentials, in the order of the members' names: mark, member, field.
macro_rules! client_credentials_rows {
    ($lines:ident!($($arguments:tt)*)) => {
        $lines! {
            $($arguments)*;
            optional "refreshUrl" refresh_url,
            scopes "scopes" scopes,
            required "tokenUrl" token_url,
        }
    };
}

/// An OAuth Flow Object (OpenAPI 3.1, section 4.8.29) under `clientCredentials`: the flow by the credentials of the client.
#[derive(Debug, Drop)]
pub struct ClientCredentials {
    /// The URL where tokens are handed out: the member `tokenUrl`.
    pub token_url: String,
    /// The URL where tokens are renewed: the member `refreshUrl`.
    pub refresh_url: Option<String>,
    /// The scopes that the flow can grant.
    pub scopes: Scopes,
    /// Specification extensions.
    pub extensions: Option<Extensions>,
}

impl ClientCredentials {
    ghost use Rattle.utoipa_security.specs.Flows.{made_client_credentials};

    /// A flow with its URL and scopes, and nothing else.
    pub fn new(token_url: String, scopes: Scopes) -> ClientCredentials
        ensures { result ≡ made_client_credentials token_url None scopes }
    {
        ClientCredentials {
            token_url,
            refresh_url: None,
            scopes,
            extensions: None,
        }
    }

    /// A flow with its URL and scopes, and the URL where tokens are renewed.
    pub fn with_refresh_url(
        token_url: String,
        scopes: Scopes,
        refresh_url: String,
    ) -> ClientCredentials
        ensures { result ≡ made_client_credentials token_url (Some refresh_url) scopes }
    {
        ClientCredentials {
            token_url,
            refresh_url: Some(refresh_url),
            scopes,
            extensions: None,
        }
    }
}

impl Documented for ClientCredentials {
    ghost use Rattle.utoipa_security.specs.Flows.{client_credentials_doc};

    ghost kind = { named client_credentials_flow };

    ghost doc = { client_credentials_doc };
}

impl Emit for ClientCredentials {
    fn emit<S: JsonSink>(&self, out: &mut S) -> Result<(), AllocError> {
        let names = client_credentials_rows!(row_names!());
        let values = client_credentials_rows!(row_values!(self));
        emit_table(out, names, &values, &self.extensions)
    }
}

impl Tree for ClientCredentials {
    ghost use Rattle.utoipa_security.specs.Flows.{client_credentials_of_kind};

    ghost is_of_kind = { client_credentials_of_kind };

    fn read_plain(
        alloc: Global,
        tree: &Value,
        readings: &mut Readings,
    ) -> Result<ClientCredentials, ReadFault> {
        let names = client_credentials_rows!(row_names!());
        let (fields, extensions) = read_table(alloc, tree, "ClientCredentials", names, readings)?;
        Ok(client_credentials_rows!(from_fields!(ClientCredentials, fields, extensions)))
    }

    fn try_clone(&self, alloc: Global) -> Result<ClientCredentials, AllocError> {
        client_credentials_rows!(clone_table!(ClientCredentials, self, alloc))
    }
}

impl Place for ClientCredentials {
    fn is_schema() -> bool {
        false
    }
}

// The rows of the flow by an authorization code, in the order of the members' names: mark, member, field.
macro_rules! authorization_code_rows {
    ($lines:ident!($($arguments:tt)*)) => {
        $lines! {
            $($arguments)*;
            required "authorizationUrl" authorization_url,
            optional "refreshUrl" refresh_url,
            scopes "scopes" scopes,
            required "tokenUrl" token_url,
        }
    };
}

/// An OAuth Flow Object (OpenAPI 3.1, section 4.8.29) under `authorizationCode`: the flow by an authorization code.
#[derive(Debug, Drop)]
pub struct AuthorizationCode {
    /// The URL where the resource owner grants access: the member `authorizationUrl`.
    pub authorization_url: String,
    /// The URL where tokens are handed out: the member `tokenUrl`.
    pub token_url: String,
    /// The URL where tokens are renewed: the member `refreshUrl`.
    pub refresh_url: Option<String>,
    /// The scopes that the flow can grant.
    pub scopes: Scopes,
    /// Specification extensions.
    pub extensions: Option<Extensions>,
}

impl AuthorizationCode {
    ghost use Rattle.utoipa_security.specs.Flows.{made_authorization_code};

    /// A flow with its URLs and scopes, and nothing else.
    pub fn new(authorization_url: String, token_url: String, scopes: Scopes) -> AuthorizationCode
        ensures { result ≡ made_authorization_code authorization_url token_url None scopes }
    {
        AuthorizationCode {
            authorization_url,
            token_url,
            refresh_url: None,
            scopes,
            extensions: None,
        }
    }

    /// A flow with its URLs and scopes, and the URL where tokens are renewed.
    pub fn with_refresh_url(
        authorization_url: String,
        token_url: String,
        scopes: Scopes,
        refresh_url: String,
    ) -> AuthorizationCode
        ensures { result ≡ made_authorization_code authorization_url token_url (Some refresh_url) scopes }
    {
        AuthorizationCode {
            authorization_url,
            token_url,
            refresh_url: Some(refresh_url),
            scopes,
            extensions: None,
        }
    }
}

impl Documented for AuthorizationCode {
    ghost use Rattle.utoipa_security.specs.Flows.{authorization_code_doc};

    ghost kind = { named authorization_code_flow };

    ghost doc = { authorization_code_doc };
}

impl Emit for AuthorizationCode {
    fn emit<S: JsonSink>(&self, out: &mut S) -> Result<(), AllocError> {
        let names = authorization_code_rows!(row_names!());
        let values = authorization_code_rows!(row_values!(self));
        emit_table(out, names, &values, &self.extensions)
    }
}

impl Tree for AuthorizationCode {
    ghost use Rattle.utoipa_security.specs.Flows.{authorization_code_of_kind};

    ghost is_of_kind = { authorization_code_of_kind };

    fn read_plain(
        alloc: Global,
        tree: &Value,
        readings: &mut Readings,
    ) -> Result<AuthorizationCode, ReadFault> {
        let names = authorization_code_rows!(row_names!());
        let (fields, extensions) = read_table(alloc, tree, "AuthorizationCode", names, readings)?;
        Ok(authorization_code_rows!(from_fields!(AuthorizationCode, fields, extensions)))
    }

    fn try_clone(&self, alloc: Global) -> Result<AuthorizationCode, AllocError> {
        authorization_code_rows!(clone_table!(AuthorizationCode, self, alloc))
    }
}

impl Place for AuthorizationCode {
    fn is_schema() -> bool {
        false
    }
}

// The rows of the flow of devices, in the order of the members' names: mark, member, field.
macro_rules! device_authorization_rows {
    ($lines:ident!($($arguments:tt)*)) => {
        $lines! {
            $($arguments)*;
            required "deviceAuthorizationUrl" device_authorization_url,
            optional "refreshUrl" refresh_url,
            scopes "scopes" scopes,
            required "tokenUrl" token_url,
        }
    };
}

/// An OAuth Flow Object (OpenAPI 3.1, section 4.8.29) under `deviceAuthorization`: the flow of devices without a browser, from OpenAPI 3.2 on.
#[derive(Debug, Drop)]
pub struct DeviceAuthorization {
    /// The URL where a device asks for its codes: the member `deviceAuthorizationUrl`.
    pub device_authorization_url: String,
    /// The URL where tokens are handed out: the member `tokenUrl`.
    pub token_url: String,
    /// The URL where tokens are renewed: the member `refreshUrl`.
    pub refresh_url: Option<String>,
    /// The scopes that the flow can grant.
    pub scopes: Scopes,
    /// Specification extensions.
    pub extensions: Option<Extensions>,
}

impl DeviceAuthorization {
    ghost use Rattle.utoipa_security.specs.Flows.{made_device_authorization};

    /// A flow with its URLs and scopes, and nothing else.
    pub fn new(
        device_authorization_url: String,
        token_url: String,
        scopes: Scopes,
    ) -> DeviceAuthorization
        ensures { result ≡ made_device_authorization device_authorization_url token_url None scopes }
    {
        DeviceAuthorization {
            device_authorization_url,
            token_url,
            refresh_url: None,
            scopes,
            extensions: None,
        }
    }

    /// A flow with its URLs and scopes, and the URL where tokens are renewed.
    pub fn with_refresh_url(
        device_authorization_url: String,
        token_url: String,
        scopes: Scopes,
        refresh_url: String,
    ) -> DeviceAuthorization
        ensures { result ≡ made_device_authorization device_authorization_url token_url (Some refresh_url) scopes }
    {
        DeviceAuthorization {
            device_authorization_url,
            token_url,
            refresh_url: Some(refresh_url),
            scopes,
            extensions: None,
        }
    }
}

impl Documented for DeviceAuthorization {
    ghost use Rattle.utoipa_security.specs.Flows.{device_authorization_doc};

    ghost kind = { named device_authorization_flow };

    ghost doc = { device_authorization_doc };
}

impl Emit for DeviceAuthorization {
    fn emit<S: JsonSink>(&self, out: &mut S) -> Result<(), AllocError> {
        let names = device_authorization_rows!(row_names!());
        let values = device_authorization_rows!(row_values!(self));
        emit_table(out, names, &values, &self.extensions)
    }
}

impl Tree for DeviceAuthorization {
    ghost use Rattle.utoipa_security.specs.Flows.{device_authorization_of_kind};

    ghost is_of_kind = { device_authorization_of_kind };

    fn read_plain(
        alloc: Global,
        tree: &Value,
        readings: &mut Readings,
    ) -> Result<DeviceAuthorization, ReadFault> {
        let names = device_authorization_rows!(row_names!());
        let (fields, extensions) = read_table(alloc, tree, "DeviceAuthorization", names, readings)?;
        Ok(device_authorization_rows!(from_fields!(DeviceAuthorization, fields, extensions)))
    }

    fn try_clone(&self, alloc: Global) -> Result<DeviceAuthorization, AllocError> {
        device_authorization_rows!(clone_table!(DeviceAuthorization, self, alloc))
    }
}

impl Place for DeviceAuthorization {
    fn is_schema() -> bool {
        false
    }
}
