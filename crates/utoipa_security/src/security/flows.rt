//! The flows of OAuth under their keys: the OAuth Flows Object (OpenAPI 3.1, section 4.8.28).
ghost use Rattle.std.specs.Prelude.{◌≡◌, Some, option_map, IfOk, IfErr, OnOk};
ghost use Rattle.std.specs.Iterator.{IsFinite};
ghost use Rattle.serde_json.specs.View.{view};
ghost use Rattle.utoipa_base.specs.Choices.{chosen, flow_keys};
ghost use Rattle.utoipa_base.specs.Faults.{Refuses};
ghost use Rattle.utoipa_base.specs.Kinds.{named, required};
ghost use Rattle.utoipa_base.specs.Kinds as kinds;
ghost use Rattle.utoipa_base.specs.Events.{events};
ghost use Rattle.utoipa_base.specs.Lists.{EachIterator};
ghost use Rattle.utoipa_base.specs.Reading.{read};
ghost use Rattle.utoipa_base.specs.Tables.{row};
ghost use Rattle.utoipa_base.specs.Writing.{write};
ghost use Rattle.utoipa_security.specs.OAuth.{flow_object, flow_view, flow_key, flow_type, flow_read, any_flow_read, flows_doc, IsKeyedFrom};

use crate::security::flow::{
    AuthorizationCode, ClientCredentials, DeviceAuthorization, Implicit, Password,
};
use serde_json::Value;
use std::alloc::{AllocError, Global};
use std::collections::BTreeMap;
use utoipa_base::table::RowField;
use utoipa_base::{Emit, EmitRow, JsonSink, PendingExtensions, ReadFault, Readings, Tree};

/// An OAuth Flow Object (OpenAPI 3.1, section 4.8.29) of one of the kinds.
#[derive(Debug, Drop)]
pub enum Flow {
    /// `implicit`.
    Implicit(Implicit),
    /// `password`.
    Password(Password),
    /// `clientCredentials`.
    ClientCredentials(ClientCredentials),
    /// `authorizationCode`.
    AuthorizationCode(AuthorizationCode),
    /// `deviceAuthorization`.
    DeviceAuthorization(DeviceAuthorization),
}

impl Flow {
    // The key under which the flow stands.
    fn key(&self) -> &'static str
        ensures { result.now ≡ flow_key self.now }
    {
        match self {
            Flow::Implicit(_) => "implicit",
            Flow::Password(_) => "password",
            Flow::ClientCredentials(_) => "clientCredentials",
            Flow::AuthorizationCode(_) => "authorizationCode",
            Flow::DeviceAuthorization(_) => "deviceAuthorization",
        }
    }

    // Sends the flow. Fails where the sink does; then some of it may have been sent.
    fn emit<S: JsonSink>(&self, out: &mut S) -> Result<(), AllocError>
        ensures { OnOk result (S.adds out.old (events (write (flow_object self.now))) out.new) }
    {
        match self {
            Flow::Implicit(flow) => flow.emit(out),
            Flow::Password(flow) => flow.emit(out),
            Flow::ClientCredentials(flow) => flow.emit(out),
            Flow::AuthorizationCode(flow) => flow.emit(out),
            Flow::DeviceAuthorization(flow) => flow.emit(out),
        }
    }

    /// An equal flow. Fails where memory runs out.
    pub fn try_clone(&self, alloc: Global) -> Result<Flow, AllocError>
        ensures { IfOk result (λ copy. flow_object copy ≡ flow_object self.now) }
    {
        match self {
            Flow::Implicit(flow) => Ok(Flow::Implicit(flow.try_clone(alloc)?)),
            Flow::Password(flow) => Ok(Flow::Password(flow.try_clone(alloc)?)),
            Flow::ClientCredentials(flow) => Ok(Flow::ClientCredentials(flow.try_clone(alloc)?)),
            Flow::AuthorizationCode(flow) => Ok(Flow::AuthorizationCode(flow.try_clone(alloc)?)),
            Flow::DeviceAuthorization(flow) => Ok(Flow::DeviceAuthorization(flow.try_clone(
                alloc,
            )?)),
        }
    }
}

#[derive(Clone, Copy)]
pub(crate) enum FlowKind {
    Implicit,
    Password,
    ClientCredentials,
    AuthorizationCode,
    DeviceAuthorization,
}

// The kind of flows that a key names.
fn flow_kind(key: &str) -> Option<FlowKind>
    ensures { option_map flow_type result ≡ chosen key.now flow_keys }
{
    match key {
        "implicit" => Some(FlowKind::Implicit),
        "password" => Some(FlowKind::Password),
        "clientCredentials" => Some(FlowKind::ClientCredentials),
        "authorizationCode" => Some(FlowKind::AuthorizationCode),
        "deviceAuthorization" => Some(FlowKind::DeviceAuthorization),
        _ => None,
    }
}

// The value of a type that holds no schema, so that nothing is to be counted.
fn read_uncounted<T: Tree>(alloc: Global, tree: &Value) -> Result<T, ReadFault>
    ensures ok { IfOk result (λ v. read T.kind (view tree.now) ≡ Some (T.doc v)) }
    ensures err { IfErr result (Refuses (read T.kind (view tree.now))) }
{
    let mut uncounted = Readings::new();
    T::read_plain(alloc, tree, &mut uncounted)
}

// A flow of one kind.
fn read_as(kind: FlowKind, alloc: Global, tree: &Value) -> Result<Flow, ReadFault>
    ensures ok { IfOk result (λ f. read (named (flow_type kind)) (view tree.now) ≡ Some (flow_object f)) }
    ensures err { IfErr result (Refuses (read (named (flow_type kind)) (view tree.now))) }
{
    match kind {
        FlowKind::Implicit => Ok(Flow::Implicit(read_uncounted(alloc, tree)?)),
        FlowKind::Password => Ok(Flow::Password(read_uncounted(alloc, tree)?)),
        FlowKind::ClientCredentials => Ok(Flow::ClientCredentials(read_uncounted(alloc, tree)?)),
        FlowKind::AuthorizationCode => Ok(Flow::AuthorizationCode(read_uncounted(alloc, tree)?)),
        FlowKind::DeviceAuthorization => {
            Ok(Flow::DeviceAuthorization(read_uncounted(alloc, tree)?))
        }
    }
}

// The value of a type, where the tree reads as one.
fn read_if_fits<T: Tree>(alloc: Global, tree: &Value) -> Result<Option<T>, AllocError>
    ensures { IfOk result (λ o. read T.kind (view tree.now) ≡ option_map T.doc o) }
{
    match read_uncounted(alloc, tree) {
        Ok(value) => Ok(Some(value)),
        Err(ReadFault::Memory) => Err(AllocError),
        Err(_) => Ok(None),
    }
}

// A flow of the first kind that fits.
fn read_any(alloc: Global, tree: &Value) -> Result<Flow, ReadFault>
    ensures ok { IfOk result (λ f. any_flow_read (view tree.now) ≡ Some (flow_view f)) }
    ensures err { IfErr result (Refuses (any_flow_read (view tree.now))) }
{
    if let Some(implicit) = read_if_fits(alloc, tree)? {
        return Ok(Flow::Implicit(implicit));
    }
    if let Some(password) = read_if_fits(alloc, tree)? {
        return Ok(Flow::Password(password));
    }
    if let Some(client_credentials) = read_if_fits(alloc, tree)? {
        return Ok(Flow::ClientCredentials(client_credentials));
    }
    if let Some(authorization_code) = read_if_fits(alloc, tree)? {
        return Ok(Flow::AuthorizationCode(authorization_code));
    }
    if let Some(device_authorization) = read_if_fits(alloc, tree)? {
        return Ok(Flow::DeviceAuthorization(device_authorization));
    }
    Err(ReadFault::Alternative)
}

// The flow under a key: of the kind that the key names, or else of the first kind that fits.
fn read_flow(alloc: Global, key: &str, tree: &Value) -> Result<Flow, ReadFault>
    ensures ok { IfOk result (λ f. flow_read key.now (view tree.now) ≡ Some (flow_view f)) }
    ensures err { IfErr result (Refuses (flow_read key.now (view tree.now))) }
{
    match flow_kind(key) {
        Some(kind) => read_as(kind, alloc, tree),
        None => read_any(alloc, tree),
    }
}

#[tactic(auto, using(crate::proofs::KeyedFlows::by_flows))]
fn read_flows(alloc: Global, tree: &Value) -> Result<BTreeMap<String, Flow>, ReadFault>
    ensures ok { IfOk result (λ m. read kinds.flows (view tree.now) ≡ Some (flows_doc m)) }
    ensures err { IfErr result (Refuses (read kinds.flows (view tree.now))) }
{
    let Some(members) = tree.as_object() else {
        return Err(ReadFault::Kind("flows"));
    };
    let mut map = BTreeMap::new(alloc);
    for (key, member) in members.iter() {
        let name = key.clone()?;
        let value = read_flow(alloc, key.as_str(), member)?;
        drop(map.insert(name, value)?);
    }
    Ok(map)
}

/// The flows of an OAuth scheme: a required member of it.
#[derive(Drop)]
pub(crate) struct FlowsField(pub(crate) BTreeMap<String, Flow>);

#[tactic(auto, using(utoipa_base::proofs::ByRows::by_row))]
impl RowField for FlowsField {
    ghost line = { λ name. row name required kinds.flows };

    ghost doc = { λ v. flows_doc v.0 };

    // No flow holds a schema, so that nothing is to be counted.
    fn read(
        alloc: Global,
        tree: &Value,
        name: &'static str,
        _readings: &mut Readings,
    ) -> Result<FlowsField, ReadFault> {
        match tree.get(name) {
            Some(member) => Ok(FlowsField(read_flows(alloc, member)?)),
            None => Err(ReadFault::Missing(name)),
        }
    }
}

// Sends the flows under their keys. Fails where the sink does; then some of them may have been sent.
fn emit_flows<S: JsonSink>(out: &mut S, flows: &BTreeMap<String, Flow>) -> Result<(), AllocError>
    ensures { OnOk result (S.adds out.old (events (write (flows_doc flows.now))) out.new) }
{
    out.begin_object()?;
    for (name, member) in flows.iter() {
        out.key(name.as_str())?;
        member.emit(out)?;
    }
    out.end_object()
}

/// The flows of an OAuth scheme, to be sent: a required member of it.
#[derive(Clone, Copy)]
pub(crate) struct FlowsValue<'v>(pub(crate) &'v BTreeMap<String, Flow>);

impl<'v> EmitRow for FlowsValue<'v> {
    ghost line = { λ name. row name required kinds.flows };

    ghost doc = { λ v. flows_doc v.0.now };

    fn emit<'a, S: JsonSink>(
        &self,
        out: &mut S,
        name: &str,
        pending: PendingExtensions<'a>,
    ) -> Result<PendingExtensions<'a>, AllocError> {
        let later = pending.emit_key(out, name)?;
        emit_flows(out, self.0)?;
        Ok(later)
    }
}

/// Equal flows under the same keys. Fails where memory runs out.
pub(crate) fn clone_flows(
    alloc: Global,
    flows: &BTreeMap<String, Flow>,
) -> Result<BTreeMap<String, Flow>, AllocError>
    ensures { IfOk result (λ copy. flows_doc copy ≡ flows_doc flows.now) }
{
    let mut map = BTreeMap::new(alloc);
    for (key, member) in flows.iter() {
        let name = key.clone()?;
        let value = member.try_clone(alloc)?;
        drop(map.insert(name, value)?);
    }
    Ok(map)
}

/// Each flow under the key of its kind. The later of two of one kind stays. Fails where memory runs out.
pub(crate) fn keyed_flows<I: IntoIterator<Item = Flow>>(
    alloc: Global,
    flows: I,
) -> Result<BTreeMap<String, Flow>, AllocError>
    requires can { EachIterator I.into_iter_gives I.IntoIter.can_next flows }
    requires ends { EachIterator I.into_iter_gives (λ it. IsFinite (I.IntoIter.remaining it)) flows }
    ensures { IfOk result (λ m. IsKeyedFrom I.into_iter_gives I.IntoIter.next_gives flows m) }
{
    let mut map = BTreeMap::new(alloc);
    for flow in flows {
        let name = String::from_str(alloc, flow.key())?;
        drop(map.insert(name, flow)?);
    }
    Ok(map)
}
