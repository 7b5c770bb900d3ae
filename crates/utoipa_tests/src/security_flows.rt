//! The flows of OAuth as they are made, by what they are written as.
use crate::shared::{extension, is_text, is_written, is_written_first, read, text, two};
use std::process::Abort;
use utoipa_base::{Deprecated, Tree};
use utoipa_security::security::{
    AuthorizationCode, ClientCredentials, DeviceAuthorization, Flow, Implicit, OAuth2, Password,
    Scopes, SecurityScheme,
};

// The scope `a`, which `b` describes.
fn one_scope(rt: &(impl Abort + AllocGlobal)) -> Scopes {
    Scopes::one(rt.alloc(), text(rt, "a"), text(rt, "b")).expect(rt, "a scope")
}

// No scopes.
fn no_scopes(rt: &(impl Abort + AllocGlobal)) -> Scopes {
    Scopes::new(rt.alloc())
}

// That a scheme of a copy of the flow is written as the JSON text.
fn is_scheme(rt: &(impl Abort + AllocGlobal), flow: Flow, json: &str) {
    let copy = flow.try_clone(rt.alloc()).expect(rt, "a copy");
    drop(flow);
    let scheme = OAuth2::new(rt.alloc(), Some(copy).into_iter());
    is_written(
        rt,
        SecurityScheme::OAuth2(scheme.expect(rt, "a scheme")),
        json,
    );
}

// Of one name the later description stays.
#[test]
fn scopes_are_made_and_compared(rt: HostRuntime) {
    let mut pairs = Vec::new(rt.alloc());
    for (scope, description) in [("b", "1"), ("a", "2"), ("b", "3")] {
        let pair = (text(&rt, scope), text(&rt, description));
        pairs.push(pair).expect(&rt, "a pair");
    }
    let scopes = Scopes::from_pairs(rt.alloc(), pairs);
    is_written(
        &rt,
        scopes.expect(&rt, "scopes"),
        r#"{"scopes":{"a":"2","b":"3"}}"#,
    );
    let pairs = two(
        &rt,
        (text(&rt, "b"), text(&rt, "1")),
        (text(&rt, "a"), text(&rt, "2")),
    );
    let scopes = pairs.collect::<Scopes>(rt.alloc());
    is_written(
        &rt,
        scopes.expect(&rt, "scopes"),
        r#"{"scopes":{"a":"2","b":"1"}}"#,
    );
    let one = one_scope(&rt);
    assert!(rt; one == one.try_clone(rt.alloc()).expect(&rt, "a copy"));
    assert!(rt; one != no_scopes(&rt));
    is_written(&rt, one, r#"{"scopes":{"a":"b"}}"#);
}

// Of each kind, by its URLs and its scopes alone.
#[test]
fn a_flow_is_made(rt: HostRuntime) {
    let mut implicit = Implicit::new(text(&rt, "u"), no_scopes(&rt));
    implicit.extensions = extension(&rt);
    is_scheme(
        &rt,
        Flow::Implicit(implicit),
        r#"{"flows":{"implicit":{"authorizationUrl":"u","scopes":{},"x-a":1}},"type":"oauth2"}"#,
    );
    let password = Password::new(text(&rt, "t"), no_scopes(&rt));
    is_written(&rt, password, r#"{"scopes":{},"tokenUrl":"t"}"#);
    let credentials = ClientCredentials::new(text(&rt, "t"), no_scopes(&rt));
    is_written(&rt, credentials, r#"{"scopes":{},"tokenUrl":"t"}"#);
    let code = AuthorizationCode::new(text(&rt, "u"), text(&rt, "t"), one_scope(&rt));
    is_written(
        &rt,
        code,
        r#"{"authorizationUrl":"u","scopes":{"a":"b"},"tokenUrl":"t"}"#,
    );
    let device = DeviceAuthorization::new(text(&rt, "u"), text(&rt, "t"), no_scopes(&rt));
    is_written(
        &rt,
        device,
        r#"{"deviceAuthorizationUrl":"u","scopes":{},"tokenUrl":"t"}"#,
    );
}

// Of each kind, with the URL by which it is refreshed.
#[test]
fn a_refreshed_flow_stands_under_its_key(rt: HostRuntime) {
    let implicit = Implicit::with_refresh_url(text(&rt, "u"), one_scope(&rt), text(&rt, "r"));
    is_scheme(
        &rt,
        Flow::Implicit(implicit),
        r#"{"flows":{"implicit":{"authorizationUrl":"u","refreshUrl":"r","scopes":{"a":"b"}}},"type":"oauth2"}"#,
    );
    let password = Password::with_refresh_url(text(&rt, "t"), one_scope(&rt), text(&rt, "r"));
    is_scheme(
        &rt,
        Flow::Password(password),
        r#"{"flows":{"password":{"refreshUrl":"r","scopes":{"a":"b"},"tokenUrl":"t"}},"type":"oauth2"}"#,
    );
    let credentials = ClientCredentials::with_refresh_url(
        text(&rt, "t"),
        one_scope(&rt),
        text(&rt, "r"),
    );
    is_scheme(
        &rt,
        Flow::ClientCredentials(credentials),
        r#"{"flows":{"clientCredentials":{"refreshUrl":"r","scopes":{"a":"b"},"tokenUrl":"t"}},"type":"oauth2"}"#,
    );
    let code = AuthorizationCode::with_refresh_url(
        text(&rt, "https://localhost/authorization/token"),
        text(&rt, "https://localhost/token/url"),
        no_scopes(&rt),
        text(&rt, "https://localhost/refresh/token"),
    );
    is_scheme(
        &rt,
        Flow::AuthorizationCode(code),
        r#"{"flows":{"authorizationCode":{"authorizationUrl":"https://localhost/authorization/token","refreshUrl":"https://localhost/refresh/token","scopes":{},"tokenUrl":"https://localhost/token/url"}},"type":"oauth2"}"#,
    );
    let device = DeviceAuthorization::with_refresh_url(
        text(&rt, "u"),
        text(&rt, "t"),
        one_scope(&rt),
        text(&rt, "r"),
    );
    is_scheme(
        &rt,
        Flow::DeviceAuthorization(device),
        r#"{"flows":{"deviceAuthorization":{"deviceAuthorizationUrl":"u","refreshUrl":"r","scopes":{"a":"b"},"tokenUrl":"t"}},"type":"oauth2"}"#,
    );
}

// A later flow of a kind stands, and one that is put at a key is written under that, whatever its kind.
#[test]
fn a_scheme_holds_the_flows_that_were_put(rt: HostRuntime) {
    let mut flows = Vec::new(rt.alloc());
    for url in ["a", "b"] {
        let flow = Flow::Implicit(Implicit::new(text(&rt, url), no_scopes(&rt)));
        flows.push(flow).expect(&rt, "a flow");
    }
    let scheme = OAuth2::new(rt.alloc(), flows.into_iter());
    is_written(
        &rt,
        scheme.expect(&rt, "a scheme"),
        r#"{"flows":{"implicit":{"authorizationUrl":"b","scopes":{}}}}"#,
    );
    let none: Vec<Flow> = Vec::new(rt.alloc());
    let scheme = OAuth2::new(rt.alloc(), none.into_iter());
    let mut scheme = scheme.expect(&rt, "a scheme");
    is_written_first(&rt, &scheme, r#"{"flows":{}}"#);
    let implicit = Flow::Implicit(Implicit::new(text(&rt, "u"), no_scopes(&rt)));
    let put: Result<_, _> = scheme.flows.insert(text(&rt, "password"), implicit);
    drop(put.expect(&rt, "memory for a flow"));
    is_written(
        &rt,
        scheme,
        r#"{"flows":{"password":{"authorizationUrl":"u","scopes":{}}}}"#,
    );
}

// The kind of the flow under the key, of the two that are written alike.
fn kind(scheme: &SecurityScheme, key: &str) -> &'static str {
    match scheme {
        SecurityScheme::OAuth2(scheme) => match scheme.flows.get(key) {
            Some(Flow::Password(_)) => "password",
            Some(Flow::ClientCredentials(_)) => "client credentials",
            _ => "another flow",
        },
        _ => "another scheme",
    }
}

// No text tells these apart.
#[test]
fn flows_that_are_written_alike_are_told_by_their_keys(rt: HostRuntime) {
    let credentials =
        r#"{"flows":{"clientCredentials":{"scopes":{},"tokenUrl":"t"}},"type":"oauth2"}"#;
    let found = kind(&read(&rt, credentials), "clientCredentials");
    is_text(&rt, found, "client credentials");
    let password = r#"{"flows":{"password":{"scopes":{},"tokenUrl":"t"}},"type":"oauth2"}"#;
    let found = kind(&read(&rt, password), "password");
    is_text(&rt, found, "password");
}

// Each setter sets its member.
#[test]
fn a_scheme_of_a_flow_is_described(rt: HostRuntime) {
    let password = Password::with_refresh_url(text(&rt, "t"), one_scope(&rt), text(&rt, "r"));
    let flows = Some(Flow::Password(password)).into_iter();
    let mut scheme = OAuth2::with_description(rt.alloc(), flows, text(&rt, "f"))
        .expect(&rt, "a scheme")
        .with_metadata_url(text(&rt, "m"))
        .deprecated(Some(Deprecated::True));
    scheme.extensions = extension(&rt);
    is_written(
        &rt,
        SecurityScheme::OAuth2(scheme),
        r#"{"deprecated":true,"description":"f","flows":{"password":{"refreshUrl":"r","scopes":{"a":"b"},"tokenUrl":"t"}},"oauth2MetadataUrl":"m","type":"oauth2","x-a":1}"#,
    );
}
