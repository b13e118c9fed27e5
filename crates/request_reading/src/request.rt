//! Requests.

ghost use Rattle.std.specs.Prelude.{◌≡◌, IfOk};
ghost use Rattle.plain_values.specs.Plain.{empty};
ghost use Rattle.script_meaning.specs.Requests.{Admitted, request_array};

use php_syntax::tree::SuperName;
use php_values::Array;
use std::alloc::Global;
use std::marker::Model;
use text_base::NoMemory;

/// A request that a run may be asked with. Contracts see its five arrays as plain pairs, and know
/// that it is admitted.
#[derive(Debug, Drop)]
pub struct Request {
    get: Array,
    post: Array,
    cookie: Array,
    request: Array,
    server: Array,
}

impl Model for Request {
    ghost use Rattle.script_meaning.specs.Requests.{PlainRequest};
    ghost use Rattle.request_reading.specs.RequestCode.{request_code};

    ghost Value = { PlainRequest };

    ghost coded = { request_code };

    ghost use Rattle.script_meaning.specs.Requests.{Admitted};

    ghost view = { λ r. record {
      get_of = r.get;
      post_of = r.post;
      cookie_of = r.cookie;
      request_of = r.request;
      server_of = r.server;
    } };

    ghost invariant = { λ r. Admitted (record {
      get_of = r.get;
      post_of = r.post;
      cookie_of = r.cookie;
      request_of = r.request;
      server_of = r.server;
    }) };
}

impl Request {
    /// The request of five empty arrays.
    pub fn empty(alloc: Global) -> Result<Request, NoMemory>
        ensures { IfOk result (λ r. r ≡ record {
          get_of = empty;
          post_of = empty;
          cookie_of = empty;
          request_of = empty;
          server_of = empty;
        }) }
    {
        let get = Array::new(alloc)?;
        let post = Array::new(alloc)?;
        let cookie = Array::new(alloc)?;
        let request = Array::new(alloc)?;
        let server = Array::new(alloc)?;
        Ok(Request {
            get,
            post,
            cookie,
            request,
            server,
        })
    }

    /// The request of five arrays, which together are admitted.
    pub fn of(get: Array, post: Array, cookie: Array, request: Array, server: Array) -> Request
        requires { Admitted (record {
          get_of = get;
          post_of = post;
          cookie_of = cookie;
          request_of = request;
          server_of = server;
        }) }
        ensures { result ≡ record {
          get_of = get;
          post_of = post;
          cookie_of = cookie;
          request_of = request;
          server_of = server;
        } }
    {
        Request {
            get,
            post,
            cookie,
            request,
            server,
        }
    }

    /// The array that a request variable names.
    #[tactic(auto, unfolding(script_meaning::specs::Requests::request_array))]
    pub fn array(&self, name: SuperName) -> &Array
        ensures array { result.now ≡ request_array self.now name }
        ensures admitted { Admitted self.now }
    {
        match name {
            SuperName::Get => &self.get,
            SuperName::Post => &self.post,
            SuperName::Cookie => &self.cookie,
            SuperName::Request => &self.request,
            SuperName::Server => &self.server,
        }
    }
}
