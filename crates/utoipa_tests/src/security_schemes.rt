//! Security schemes other than those of OAuth, and requirements, as they are made, by what they are written as.
use crate::shared::{extension, is_written, is_written_first, text};
use std::process::Abort;
use utoipa_base::{Deprecated, Tree, Word};
use utoipa_security::security::{
    ApiKey, ApiKeyValue, Http, HttpAuthScheme, HttpBuilder, OpenIdConnect, SecurityRequirement,
    SecurityScheme,
};

// In a header, in the query or in a cookie; both are described and deprecated.
#[test]
fn a_key_and_a_discovery_document_are_made(rt: HostRuntime) {
    let header = ApiKey::Header(ApiKeyValue::new(text(&rt, "api_key")));
    is_written(
        &rt,
        SecurityScheme::ApiKey(header),
        r#"{"in":"header","name":"api_key","type":"apiKey"}"#,
    );
    let query = ApiKey::Query(ApiKeyValue::new(text(&rt, "k")));
    is_written(
        &rt,
        SecurityScheme::ApiKey(query),
        r#"{"in":"query","name":"k","type":"apiKey"}"#,
    );
    let mut value = ApiKeyValue::with_description(text(&rt, "k"), text(&rt, "d")).deprecated(Some(
        Deprecated::True,
    ));
    value.extensions = extension(&rt);
    is_written(
        &rt,
        ApiKey::Cookie(value),
        r#"{"deprecated":true,"description":"d","in":"cookie","name":"k","x-a":1}"#,
    );
    let connect = OpenIdConnect::new(text(&rt, "https://localhost/openid"));
    is_written(
        &rt,
        SecurityScheme::OpenIdConnect(connect),
        r#"{"openIdConnectUrl":"https://localhost/openid","type":"openIdConnect"}"#,
    );
    let mut connect = OpenIdConnect::with_description(text(&rt, "u"), text(&rt, "d")).deprecated(
        Some(Deprecated::True),
    );
    connect.extensions = extension(&rt);
    is_written(
        &rt,
        connect,
        r#"{"deprecated":true,"description":"d","openIdConnectUrl":"u","x-a":1}"#,
    );
}

// The scheme of that name alone is written with the word.
fn is_http(rt: &(impl Abort + AllocGlobal), scheme: HttpAuthScheme, word: &str) {
    let expected = format!(in rt.alloc(); "{{\"scheme\":\"{word}\",\"type\":\"http\"}}");
    let expected = expected.expect(rt, "memory for a text");
    is_written(
        rt,
        SecurityScheme::Http(Http::new(scheme)),
        expected.as_str(),
    );
}

// By default it is Basic.
#[test]
fn each_http_scheme_is_written_with_its_word(rt: HostRuntime) {
    assert_eq!(rt; HttpAuthScheme::default(), HttpAuthScheme::Basic);
    assert_eq!(rt; HttpAuthScheme::ScramSha256.as_text(), "scram-sha-256");
    let shown = format!(in rt.alloc(); "{}", HttpAuthScheme::OAuth).expect(
        &rt,
        "memory for a word",
    );
    assert_eq!(rt; shown.as_str(), "oauth");
    is_written(&rt, Http::default(), r#"{"scheme":"basic"}"#);
    is_written(&rt, HttpBuilder::default().build(), r#"{"scheme":"basic"}"#);
    for (scheme, word) in [
        (HttpAuthScheme::Basic, "basic"),
        (HttpAuthScheme::Bearer, "bearer"),
        (HttpAuthScheme::Digest, "digest"),
        (HttpAuthScheme::Hoba, "hoba"),
        (HttpAuthScheme::Mutual, "mutual"),
        (HttpAuthScheme::Negotiate, "negotiate"),
        (HttpAuthScheme::OAuth, "oauth"),
        (HttpAuthScheme::ScramSha1, "scram-sha-1"),
        (HttpAuthScheme::ScramSha256, "scram-sha-256"),
        (HttpAuthScheme::Vapid, "vapid"),
    ] {
        is_http(&rt, scheme, word);
    }
    let mut bearer = Http::new(HttpAuthScheme::Bearer);
    bearer.extensions = extension(&rt);
    is_written(&rt, bearer, r#"{"scheme":"bearer","x-a":1}"#);
}

// A bearer format is dropped where the scheme is not Bearer yet.
#[test]
fn each_setter_of_an_http_scheme_sets_its_member(rt: HostRuntime) {
    let before = HttpBuilder::new()
        .bearer_format(text(&rt, "JWT"))
        .scheme(HttpAuthScheme::Bearer);
    is_written(&rt, before.build(), r#"{"scheme":"bearer"}"#);
    let bearer = HttpBuilder::new()
        .scheme(HttpAuthScheme::Bearer)
        .bearer_format(text(&rt, "JWT"));
    is_written(
        &rt,
        SecurityScheme::Http(bearer.build()),
        r#"{"bearerFormat":"JWT","scheme":"bearer","type":"http"}"#,
    );
    let all = Http::from(
        Http::builder()
            .description(Some(text(&rt, "d")))
            .deprecated(Some(Deprecated::True)),
    );
    let copy = all.try_clone(rt.alloc()).expect(&rt, "a copy");
    is_written(
        &rt,
        all,
        r#"{"deprecated":true,"description":"d","scheme":"basic"}"#,
    );
    let bare = HttpBuilder::from(copy)
        .description(None)
        .deprecated(None)
        .scheme(HttpAuthScheme::Digest);
    is_written(&rt, bare.build(), r#"{"scheme":"digest"}"#);
}

// A new one requires nothing.
#[test]
fn a_requirement_replaces_the_scopes_of_a_name(rt: HostRuntime) {
    is_written(&rt, SecurityRequirement::empty(rt.alloc()), "{}");
    let scopes = Some(text(&rt, "s")).into_iter();
    let requirement = SecurityRequirement::new(rt.alloc(), text(&rt, "a"), scopes);
    let requirement = requirement.expect(&rt, "a requirement");
    is_written_first(&rt, &requirement, r#"{"a":["s"]}"#);
    let listed = requirement
        .as_map()
        .get("a")
        .expect(&rt, "the scopes of a name");
    assert_eq!(rt; listed.len(), 1);
    assert!(rt; requirement != SecurityRequirement::empty(rt.alloc()));
    let none: Vec<String> = Vec::new(rt.alloc());
    let later = requirement.add(rt.alloc(), text(&rt, "a"), none.into_iter());
    is_written(&rt, later.expect(&rt, "a later requirement"), r#"{"a":[]}"#);
}
