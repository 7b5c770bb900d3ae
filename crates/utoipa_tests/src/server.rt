//! Servers and their variables by their builders, and extensions that are named like a member.
use crate::shared::{extension, is_flag, is_written, read, text};
use serde_json::Value;
use std::process::Abort;
use utoipa_base::Extensions;
use utoipa_leaf::server::{Server, ServerBuilder, ServerVariable, ServerVariableBuilder};

// A variable with all its members.
fn version(rt: &(impl Abort + AllocGlobal)) -> ServerVariable {
    let values: Vec<String> = read(rt, "[\"v1\",\"v2\"]");
    let listed = ServerVariable::builder(rt.alloc()).enum_values(
        rt.alloc(),
        Some(values.into_iter()),
    );
    let builder = listed
        .expect(rt, "memory for values")
        .description(Some(text(rt, "api version")))
        .default_value(text(rt, "v1"));
    ServerVariableBuilder::from(builder.build()).build()
}

// A variable with its default alone.
fn username(rt: &(impl Abort + AllocGlobal)) -> ServerVariable {
    let builder = ServerVariableBuilder::new(rt.alloc()).default_value(text(rt, "the_user"));
    ServerVariable::from(builder)
}

// The builder with a variable of that name more.
fn with_variable(
    rt: &(impl Abort + AllocGlobal),
    server: ServerBuilder,
    name: &str,
    variable: ServerVariable,
) -> ServerBuilder {
    let put = server.parameter(rt.alloc(), text(rt, name), variable);
    put.expect(rt, "memory for a variable")
}

// A variable of no values lists none.
#[test]
fn a_server_is_written_with_its_variables(rt: HostRuntime) {
    let builder = ServerBuilder::new(rt.alloc()).url(text(&rt, "/api/{version}/{username}"));
    let builder = with_variable(&rt, builder, "version", version(&rt));
    let server = with_variable(&rt, builder, "username", username(&rt)).build();
    is_written(
        &rt,
        server,
        "{\"url\":\"/api/{version}/{username}\",\"variables\":{\"username\":{\"default\":\"the_user\"},\"version\":{\"default\":\"v1\",\"description\":\"api version\",\"enum\":[\"v1\",\"v2\"]}}}",
    );
    let bare = ServerVariable::builder(rt.alloc())
        .extensions(extension(&rt))
        .enum_values(rt.alloc(), None::<std::vec::IntoIter<String>>);
    let bare = bare.expect(&rt, "a builder").build();
    is_written(&rt, bare, "{\"default\":\"\",\"x-a\":1}");
}

// A new builder has set none.
#[test]
fn each_setter_of_a_server_sets_its_field(rt: HostRuntime) {
    let server = ServerBuilder::from(Server::new(text(&rt, "u")))
        .description(Some(text(&rt, "d")))
        .name(Some(text(&rt, "n")))
        .extensions(extension(&rt));
    is_written(
        &rt,
        Server::from(server),
        "{\"description\":\"d\",\"name\":\"n\",\"url\":\"u\",\"x-a\":1}",
    );
    is_written(&rt, Server::builder(rt.alloc()).build(), "{\"url\":\"\"}");
}

// A member is written in place of an extension of its name, unless it is left out. No such name is one that an extension is read by, and
// where there is none, there are no extensions.
#[test]
fn no_extensions_are_read_again_where_no_name_is_one(rt: HostRuntime) {
    let other = Value::try_from_str(rt.alloc(), "v").expect(&rt, "memory for a text");
    let pairs = [
        (text(&rt, "url"), other),
        (text(&rt, "y"), Value::from(1u64)),
        (text(&rt, "description"), Value::from(5u64)),
    ];
    let pairs = Vec::from_array(rt.alloc(), pairs).expect(&rt, "memory for pairs");
    let all = Extensions::from_pairs(rt.alloc(), pairs.into_iter());
    let mut server = Server::new(text(&rt, "u"));
    server.extensions = Some(all.expect(&rt, "memory for extensions"));
    is_written(&rt, server, "{\"description\":5,\"url\":\"u\",\"y\":1}");
    let again: Server = read(&rt, "{\"url\":\"u\",\"y\":1}");
    is_flag(&rt, again.extensions.is_none(), true);
}
